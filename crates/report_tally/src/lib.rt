// What the report counts (document 02, L4): in which of five ways each enter finished, for its object and in all; and the rows that it prints.
#![tactic(auto)]

mod report_text;
mod tally;
mod way;

pub use report_text::put_report;
pub use tally::{MOST_LINES, Tally, fresh_tally, with_enter};
pub use way::{Way, way_finished};
