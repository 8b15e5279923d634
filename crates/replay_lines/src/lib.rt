// The line reader of both programs (document 01, "The replay program"; V and C: request L1): what one line says, and where it ends. A line that
// begins with L and has not this form is told apart from other malformed lines, for the report takes it for a header (L4).
//
//   L threads objects r     the header; r is 1 for reserved words, 0 for free ones
//   E thread object         enter; X exit, W wait, N notify, A notify all
//   V thread object limit   timed wait
//   S thread                one step
//   C                       one tick of the clock
//
// Each reader gets the part of the line that starts where it reads, and hands on the part behind what it has read.
#![tactic(auto)]

mod cutting;
mod number;
mod reading;

pub use cutting::{LINE_LIMIT, line_end};
pub use reading::{Line, is_header, read_line};
