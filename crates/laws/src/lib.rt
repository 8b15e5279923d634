// Laws that know nothing of locks: choices by a test, replaced places, counted members, tests over a whole table.
// The definitions are in specs/ and the laws in proofs/; there is no code.
#![tactic(auto)]
