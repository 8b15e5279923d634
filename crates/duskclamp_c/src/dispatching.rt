// A run of scripts.
ghost use Rattle.std.specs.Prelude.{◌≡◌};
ghost use Rattle.lock_engine_c.specs.Dispatch.{dispatched_answer, dispatched_bytes, dispatched_cursors, dispatched_trace};

use dispatch_rules::ScriptCursor;

// Runs the scripts, and leaves in the slices the table that the run came to, how far each script came and what each step answered. Its own answer has the
// returned number in bits 0 to 7 and the number of steps above it. Bytes that are no table are answered 11, and all stays.
#[unsafe(no_mangle)]
pub extern "C" fn duskclamp_dispatch(
    bytes: &mut [u8],
    quantum: u32,
    scripts: &[u8],
    cursors: &mut [ScriptCursor],
    trace: &mut [u64],
) -> u64
    ensures value { result ≡ dispatched_answer bytes.old quantum scripts.now cursors.old }
    ensures bytes_after { bytes.new ≡ dispatched_bytes bytes.old quantum scripts.now cursors.old }
    ensures cursors_after { cursors.new ≡ dispatched_cursors bytes.old quantum scripts.now cursors.old }
    ensures trace_after { trace.new ≡ dispatched_trace bytes.old quantum scripts.now cursors.old trace.old }
{
    lock_engine_c::duskclamp_dispatch(bytes, quantum, scripts, cursors, trace)
}
