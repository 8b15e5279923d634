// A measure that falls with every step, on every sound table, reached by a schedule or not. Definitions and proofs, and no code.
#![tactic(auto)]
