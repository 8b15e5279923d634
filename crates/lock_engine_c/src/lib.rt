// The lock engine over a table that the caller lends as bytes, as `duskclamp_c` exports it. Only numbers and slices, of numbers or of scripts' cursors, cross the
// boundary, and no call asks anything of them: bytes that are no table are answered 11 and left as they are.
#![tactic(auto)]

mod calls;
mod dispatching;
mod giving;
mod questions;
mod running;

pub use calls::{
    duskclamp_begin, duskclamp_fresh, duskclamp_step, duskclamp_table_size, duskclamp_tick,
    duskclamp_timed_wait,
};
pub use dispatching::duskclamp_dispatch;
pub use giving::duskclamp_fresh_given;
pub use questions::{
    duskclamp_blocker, duskclamp_contention_first, duskclamp_depth, duskclamp_entry_first,
    duskclamp_flag, duskclamp_holder, duskclamp_kept, duskclamp_layout_version,
    duskclamp_monitor_depth, duskclamp_next, duskclamp_object, duskclamp_object_count,
    duskclamp_onward, duskclamp_operation, duskclamp_owner, duskclamp_phase, duskclamp_rank,
    duskclamp_saved_depth, duskclamp_thread_count, duskclamp_ticks, duskclamp_version,
    duskclamp_waiting_first, duskclamp_word, duskclamp_word_kind, duskclamp_word_thread,
};
pub use running::duskclamp_run;
