// A run's trace: an entry for each step, as far as the caller has lent room.
ghost use Rattle.std.specs.Prelude.{◌≡◌, set};
ghost use Rattle.laws.specs.Choice.{pick};
ghost use Rattle.dispatch_rules.specs.Dispatch.{trace_entry};

use event_bytes::packed;
use lock_engine::{Done, returned, woken};

// Bit 17, which an answer does not use.
const BEGUN_UNIT: u64 = 131072;

// From bit 24 on, nor these.
const THREAD_UNIT: u64 = 16777216;

// The step's answer, with its thread and whether the thread began its operation just before.
#[tactic(auto, unfolding(dispatch_rules::specs::Dispatch::trace_entry))]
pub(crate) fn trace_entry(thread: u8, begun: bool, done: Done) -> u64
    ensures { result ≡ trace_entry thread begun done.reply done.commits done.unparked }
{
    let answer = packed(
        returned(done.reply),
        woken(done.reply),
        done.commits,
        done.unparked,
    );
    answer + u64::from(begun) * BEGUN_UNIT + u64::from(thread) * THREAD_UNIT
}

// A place past the end is not set; and a turn without a step has no entry, as the caller says by `took`. A branch in the loop would give
// each of the loop's facts two cases.
pub(crate) fn put_entry(trace: &mut [u64], place: usize, took: bool, entry: u64)
    ensures { trace.new ≡ pick took (set trace.old place entry) trace.old }
{
    if took && place < trace.len() {
        trace[place] = entry;
    }
}
