// Demand 1 of the engine's definitions: which refusal an event gets, and the table that a refused event gives back.
// The statements are in specs/ and their proofs in proofs/; there is no code.
#![tactic(auto)]
