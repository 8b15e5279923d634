// Worked examples of what the library for C stores of an outcome and says of a lock word, of what the replay prints of an outcome, of schedules and a
// replay, and of the dispatcher.
// The examples are in specs/ and their proofs in proofs/; there is no code. The must-fail edits are false
// examples, and wrong programs in the place of right ones.
#![tactic(auto)]
