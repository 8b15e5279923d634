// Turns, rounds and runs of any machine, one thread after another, and their fairness. Definitions and proofs, and no code.
#![tactic(auto)]
