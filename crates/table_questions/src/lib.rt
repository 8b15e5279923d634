// Questions about a table in bytes: what its records say, who owns an object, and who blocks a thread.
#![tactic(auto)]

mod asking;

pub use asking::{
    ObjectQuestion, ThreadQuestion, ask_object, ask_thread, object_count, thread_count,
};
