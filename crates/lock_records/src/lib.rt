// Tables of records and the tables with lists that they stand for: every event does the same on both, so demand 3 holds of the records; and what
// stands for a sound table is sound. All of it is proof devices, in proofs/; there is no code.
#![tactic(auto)]
