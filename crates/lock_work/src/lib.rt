// What an event leaves to be done to the table besides its two records: a rule's work on the chains of its object (document 01, "Steps"), or a tick of
// the clock (document 02, L1), at which timed waits lose one tick each and those that run out move to the entry chain. Both say whom they unparked (L3).
#![tactic(auto)]

mod settling;
mod ticking;
mod waiters;
mod walking;

pub use settling::{Work, work_done, work_stays};
