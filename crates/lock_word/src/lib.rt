// Lock words: what the 32 bits of an object's lock word mean, read and written (document 01, "Lock words").
//
//   31        23 22                   8 7         2  1   0
//  +------------+----------------------+-----------+---+---+
//  |    zero    |        number        |   count   | r | s |
//  +------------+----------------------+-----------+---+---+
//
//  s shape: 0 flat or reserved, 1 fat.   r reserved.   count: six bits.   number: a thread, or of a fat word its object.
//  flat, number 0, count 0: free.   reserved, number 0, count 0: anonymous.   Number 0 with a count is no lock word.
#![tactic(auto)]

mod depth;
mod kinds;
mod layout;
mod meaning;
mod reading;
mod ticks;
mod writing;

pub use depth::{DEPTH_LIMIT, Depth};
pub use layout::COUNT_LIMIT;
pub use meaning::{Ownership, WordSeen, cancel, kept_count, owner_of, ownership_of, seen_word};
pub use reading::{LockWord, MonitorNumber, ThreadNumber, read_word};
pub use ticks::{TICK_LIMIT, Ticks};
pub use writing::{anonymous_word, fat_word, flat_word, free_word, reserved_word, write_word};
