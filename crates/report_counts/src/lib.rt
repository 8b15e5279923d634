// What the report's figures are, counted from the events of its lines: definitions and proofs, and no code.
#![tactic(auto)]
