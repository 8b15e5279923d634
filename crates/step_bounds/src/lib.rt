// How many steps a thread takes of its own, in any schedule: the claim, and its proof for tables with lists. Definitions and proofs, and no code.
#![tactic(auto)]
