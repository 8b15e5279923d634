// The lock engine: a thread begins an operation or takes a single step, or the clock ticks, and the table comes back with a reply and with
// the set of threads that the event unparked (document 01, "Returned first"; document 02, L1 and L3).
// Every table and every number is answered; what cannot be done is refused with the first refusal that applies.
#![tactic(auto)]

mod handling;
mod outcome;
mod turning;

pub use handling::{begin, handle, handle_in_place, handle_trusting, step, tick_event, turn_with};
pub use outcome::{Done, Outcome, Reply, refusal_number, returned, woken};
pub use turning::{Turn, begun};
