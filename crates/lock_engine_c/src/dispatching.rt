// A run of scripts over a table in bytes (document 02, L6): the bytes are read once, and written once if the run takes a step.
ghost use Rattle.std.specs.Prelude.{◌≡◌};
ghost use Rattle.lock_engine_c.specs.Dispatch.{dispatched_answer, dispatched_bytes, dispatched_cursors, dispatched_trace};

use crate::calls::store;
use dispatch_core::dispatch_returned;
use dispatch_rules::ScriptCursor;
use lock_dispatch::dispatch;
use lock_engine::refusal_number;
use lock_rules::Refusal;
use table_bytes::{is_table, read_table};

// The steps of a run's answer begin at bit 8.
const STEPS_UNIT: u64 = 256;

// Runs the scripts, and leaves in the slices the table that the run came to, how far each script came and what each step answered. Its own answer has the
// returned number in bits 0 to 7 and the number of steps above it. Bytes that are no table are answered 11, and all stays.
pub fn duskclamp_dispatch(
    bytes: &mut [u8],
    quantum: u32,
    scripts: &[u8],
    cursors: &mut [ScriptCursor],
    trace: &mut [u64],
) -> u64
    ensures value { result ≡ dispatched_answer bytes.old quantum scripts.now cursors.old }
    ensures bytes_after { bytes.new ≡ dispatched_bytes bytes.old quantum scripts.now cursors.old }
    ensures cursors_after { cursors.new ≡ dispatched_cursors bytes.old quantum scripts.now cursors.old }
    ensures trace_after { trace.new ≡ dispatched_trace bytes.old quantum scripts.now cursors.old trace.old }
{
    if !is_table(bytes) {
        return u64::from(refusal_number(Refusal::NotSound));
    }
    let done = dispatch(read_table(bytes), quantum, scripts, cursors, trace);
    store(bytes, done.table, 0 < done.steps);
    u64::from(dispatch_returned(done.answer)) + done.steps * STEPS_UNIT
}
