// What soundness asks of one record, a thread's or an object's (document 01, "Lock words", the sentence "Sound means"; ticks and ranks: document 02, L1 and L8).
#![tactic(auto)]

mod choice;
mod object;
mod thread;

pub use object::{empty_object, used_object_fits};
pub use thread::{member_passes, rank_there, thread_passes};
