// Schedules: lists of events from a fresh table, and demand 3 over all of them. The statement is in specs/ and its proof in proofs/.
// `run` runs a schedule that is given in bytes, and promises demand 3 of what it gives back.
#![tactic(auto)]

mod running;

pub use running::run;
