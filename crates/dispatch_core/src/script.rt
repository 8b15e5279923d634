// The operations of a script, and what the next one makes of its thread's record and cursor.
ghost use Rattle.std.specs.Prelude.{◌≡◌, ◌+◌};
ghost use Rattle.dispatch_rules.specs.Script.{operation_at, object_of, begins};
ghost use Rattle.dispatch_core.specs.Records.{record_ready, cursor_after};

use dispatch_rules::ScriptCursor;
use lock_engine::begun;
use lock_rules::ThreadStatus;
use lock_table::{ThreadRecord, operation_from};

// An operation of a script is two bytes, its number and its object.
pub(crate) const OPERATION_SIZE: usize = 2;

const NO_LIMIT: u32 = 0;

// The number of the operation at a place of a script, and its object. Past the end both are 0.
pub(crate) fn operation_at(scripts: &[u8], start: u32, place: u32) -> (u8, u8)
    ensures operation { result.0 ≡ operation_at scripts.now (start + place) }
    ensures object { result.1 ≡ object_of scripts.now (start + place) }
{
    let at = (start as usize + place as usize) * OPERATION_SIZE;
    let operation = scripts.get(at).copied().unwrap_or(0);
    let object = scripts.get(at + 1).copied().unwrap_or(0);
    (operation, object)
}

// Whether the thread is idle and its cursor is before its script's end, so that it begins the next operation.
#[tactic(auto, unfolding(dispatch_rules::specs::Script::begins))]
pub(crate) fn begins(status: ThreadStatus, cursor: ScriptCursor) -> bool
    ensures { result ≡ begins status cursor }
{
    matches!(status, ThreadStatus::Idle) && cursor.cursor < cursor.length
}

// The thread's record when it may take a step.
#[tactic(auto, unfolding(crate::specs::Records::record_ready))]
pub(crate) fn record_ready(
    begins: bool,
    scripts: &[u8],
    own: ThreadRecord,
    cursor: ScriptCursor,
) -> ThreadRecord
    ensures { result ≡ record_ready begins scripts.now own cursor }
{
    if begins {
        let (operation, object) = operation_at(scripts, cursor.start, cursor.cursor);
        return begun(own, operation_from(operation), object, NO_LIMIT);
    }
    own
}

// Beginning moves the cursor on. Who begins has an operation left; the test is there so that one more fits.
#[tactic(auto, unfolding(crate::specs::Records::cursor_after))]
pub(crate) fn cursor_after(begins: bool, cursor: ScriptCursor) -> ScriptCursor
    ensures { result ≡ cursor_after begins cursor }
{
    if begins && cursor.cursor < cursor.length {
        return ScriptCursor {
            cursor: cursor.cursor + 1,
            ..cursor
        };
    }
    cursor
}
