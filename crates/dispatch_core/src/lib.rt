// The core of the dispatcher (document 02, L6): runs a script for each thread over the lock engine, with the threads' cursors by value. What refuses a run is
// tested before anything runs.
#![tactic(auto)]

mod checking;
mod position;
mod running;
mod script;
mod trace;

pub use checking::dispatch_returned;
pub use running::run_scripts;
