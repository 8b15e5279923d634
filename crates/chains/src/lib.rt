// Chains of threads: a first thread followed by next indexes, over any next function. Nothing here knows tables or locks.
// The definitions are in specs/ and the laws in proofs/; of code there are the names of the chains, for rules and tables alike, the ends of one that
// grows, and a place in one.
#![tactic(auto)]

mod ends;
mod named;
mod place;

pub use ends::{Ends, first_with, no_ends};
pub use named::Chain;
pub use place::Place;
