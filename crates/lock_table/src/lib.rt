// Tables: thread and object records, access by number, chains, monitors and fresh tables (document 01, "The table").
#![tactic(auto)]

mod access;
mod chain;
mod fresh_table;
mod monitor;
mod narrowing;
mod operation;
mod owning;
mod phase;
mod record;

pub use access::{
    is_thread, object_at, object_place, set_object, set_thread, thread_at, thread_place,
};
pub use chain::{handed, moved};
pub use fresh_table::{
    FreshRefusal, FreshRequest, ObjectGiven, ThreadGiven, fresh, fresh_returned, no_table,
    no_thread_given, sized_request,
};
pub use monitor::{Handed, LetOut};
pub use narrowing::narrow;
pub use operation::{Operation, operation_from, operation_number};
pub use owning::ownership_at;
pub use phase::{Onward, Phase, carried_number, phase_number};
pub use record::{
    Activity, Monitor, OBJECTS, ObjectRecord, RANKS, THREADS, Table, ThreadRecord, no_activity,
    no_object, no_thread,
};
