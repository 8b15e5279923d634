// A step's action on records: threads read from and written to their records, what a rule sees of its object, and what an effect does to words,
// monitors and the records of chains (document 01, "Steps").
#![tactic(auto)]

mod letting_out;
mod moving;
mod parting;
mod performing;
mod queueing;
mod sighting;
mod state;
mod thread_set;

pub use letting_out::{let_out, lets_out, queued_exit};
pub use moving::{ChainPlan, if_record, moved_whole, plan_at, touched};
pub use parting::{Parting, last_behind, linked_to, no_parting, passed};
pub use performing::{object_after, object_written, own_written, stays};
pub use queueing::{first_at, joining_rank, place_for};
pub use sighting::{length_from, sight_with};
pub use state::{activity_of, read_thread, write_thread};
