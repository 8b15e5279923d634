// What is done to the record of a thread that is handed the monitor or moves to another chain.
ghost use Rattle.std.specs.Prelude.{◌≡◌};
ghost use Rattle.lock_table.specs.Chain.{carried_of, handed_of, moved_phase, moved};

use crate::phase::{Onward, Phase, onward_phase};
use crate::record::ThreadRecord;

// The phase that a thread goes on with when it is handed the monitor.
#[tactic(auto, unfolding(crate::specs::Chain::carried_of))]
fn carried(phase: Phase) -> Phase
    ensures { result ≡ carried_of phase }
{
    match phase {
        Phase::Queued(onward) => onward_phase(onward),
        other => other,
    }
}

// A thread that is handed the monitor leaves the entry chain and takes the phase that it carries.
pub fn handed(thread: ThreadRecord) -> ThreadRecord
    ensures { result ≡ handed_of thread }
{
    thread.with_phase(carried(thread.phase)).with_next(0)
}

#[tactic(auto, unfolding(crate::specs::Chain::moved_phase))]
fn moved_phase(phase: Phase) -> Phase
    ensures { result ≡ moved_phase phase }
{
    match phase {
        Phase::Contending => Phase::Queued(Onward::ToCheck),
        Phase::Waiting => Phase::Queued(Onward::ToResume),
        other => other,
    }
}

// A thread that moves to the entry chain: a contender carries 6, a waiter 15.
pub fn moved(thread: ThreadRecord) -> ThreadRecord
    ensures { result ≡ moved thread }
{
    thread.with_phase(moved_phase(thread.phase))
}
