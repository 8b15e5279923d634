// Worked examples of definitions that code below is proved to compute: words, records, bytes, rules, lines, rows and what is printed.
// The examples are in specs/ and their proofs in proofs/; there is no code. The must-fail edits are false examples.
#![tactic(auto)]
