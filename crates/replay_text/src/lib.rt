// The printer of the replay program's lines (document 01, "The replay program") and of the report program's rows (document 02, L4).
//
//   a refused event      its number alone
//   an accepted one      returned, phase, woken, word, and the set of the threads that it unparked; the word in six lower-case
//                        hexadecimal digits, the set in eight
//   an accepted tick     returned and the set
//   a row of the report  number, five figures, their five shares, and the five remainders of these
//
// A line is written into bytes that the caller lends, from a place on; the place behind it comes back. Where less than
// `LINE_ROOM` bytes are left, for a row `ROW_ROOM`, nothing is written and the place itself comes back: no line is empty, so the
// two can be told apart. Bytes and place travel side by side, as `put_answer` and `put_row` take them: a writer that holds both would be made
// and taken apart again for each line.
#![tactic(auto)]

mod answer;
mod bytes;
mod digits;
mod fields;
mod row;

pub use answer::{Answer, LINE_ROOM, put_answer};
pub use bytes::{DIGIT_ZERO, NEWLINE, SPACE};
pub use fields::has_room;
pub use row::{Figures, REPORT_ROOM, ROW_ROOM, put_row};
