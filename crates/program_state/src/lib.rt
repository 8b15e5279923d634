// What a program keeps between two lines, and what a line and the end of the input do to it. There are two programs: the replay answers the lines
// of one schedule (document 01, "The replay program"), the report counts what the lines of many do (document 02, L4).
#![tactic(auto)]

mod closing;
mod state;
mod taking;

pub use closing::{closed_state, put_closing};
pub use state::{State, fresh_state, state_over};
pub use taking::{
    event_in_place, largest_after, line_answer, line_reaction, lines_after, sound_after,
};
