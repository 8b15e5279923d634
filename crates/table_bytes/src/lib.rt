// A table as bytes, each field at its place (specs/Layout.antt), the same on every machine.
#![tactic(auto)]

mod layout;
mod object_bytes;
mod reading;
mod records;
mod thread_bytes;
mod writing;

pub use layout::{LAYOUT_VERSION, TABLE_SIZE};
pub use reading::{is_table, read_object, read_table, read_thread};
pub use writing::{write_object, write_table, write_thread};
