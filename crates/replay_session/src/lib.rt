// The session of a replay: no header yet, a table, or ended; and what each line does to it (document 01, "The replay program").
#![tactic(auto)]

mod reacting;
mod session;

pub use reacting::{Reaction, closing, line_event, react_trusting, running_event, turn_answer};
pub use session::{Session, Stage, fresh_session, session_over, session_sound};
