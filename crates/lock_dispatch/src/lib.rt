// The dispatcher over records that the caller lends (document 02, L6). They are copied into an array for the run, and back after it.
#![tactic(auto)]

ghost use Rattle.std.specs.Prelude.{◌≡◌, ◌≤◌, ◌<◌};
ghost use Rattle.dispatch_rules.specs.Dispatch.{most_steps, steps_room};
ghost use Rattle.lock_dispatch.specs.Lent.{loaded, dispatch, cursors_after, trace_after};

use dispatch_core::run_scripts;
use dispatch_rules::{Dispatched, ScriptCursor};
use lock_table::{THREADS, Table};

const NO_CURSOR: ScriptCursor = ScriptCursor {
    start: 0,
    length: 0,
    cursor: 0,
};

// Runs the scripts, and leaves in the slices how far each came and what each step answered. Refused, it leaves them as they are.
pub fn dispatch(
    table: Table,
    quantum: u32,
    scripts: &[u8],
    cursors: &mut [ScriptCursor],
    trace: &mut [u64],
) -> Dispatched
    ensures value { result ≡ dispatch table quantum scripts.now cursors.old }
    ensures cursors_after { cursors.new ≡ cursors_after table quantum scripts.now cursors.old }
    ensures trace_after { trace.new ≡ trace_after table quantum scripts.now cursors.old trace.old }
    ensures few { (result.steps ≤ most_steps table.threadcount (loaded cursors.old)) × (result.steps < steps_room) }
{
    let count = cursors.len().min(usize::from(THREADS));
    // by value, and so with room for every thread: nothing is allocated
    let mut array = [NO_CURSOR; THREADS as usize];
    array[..count].copy_from_slice(&cursors[..count]);
    let done = run_scripts(table, quantum, scripts, array, cursors.len(), trace);
    cursors[..count].copy_from_slice(&done.cursors[..count]);
    done.dispatched
}
