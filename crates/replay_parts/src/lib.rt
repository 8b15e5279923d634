// A replay that is fed its input in parts of any length, for any session that lines move on: whole lines are taken, the rest of a
// part waits for the next, and what is printed is the same for every way of cutting the input (specs/ and proofs/).
// The code keeps that rest at the front of the input buffer between two reads.
#![tactic(auto)]

mod keeping;

pub use keeping::keep_rest;
