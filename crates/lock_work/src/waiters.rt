// A waiter at a tick: a timed one loses a tick, and who has none left runs out.
ghost use Rattle.std.specs.Prelude.{◌≡◌};
ghost use Rattle.lock_work.specs.Waiters.{ticks_after, runs_out, waiter_after};

use lock_table::{Operation, ThreadRecord, moved};
use lock_word::Ticks;

// One tick less; who has none left keeps none.
fn ticks_after(ticks: Ticks) -> Ticks
    ensures { result ≡ ticks_after ticks }
{
    ticks.saturating_sub(1)
}

// Whether a waiter runs out with this tick: no wait without a limit does.
#[tactic(auto, unfolding(crate::specs::Waiters::runs_out))]
pub(crate) fn runs_out(waiter: ThreadRecord) -> bool
    ensures { result ≡ runs_out waiter.operation (ticks_after waiter.ticks) }
{
    matches!(waiter.operation, Operation::TimedWait) & (ticks_after(waiter.ticks) == 0)
}

// A waiter after the tick, in no chain yet: queued for 15 if it has run out.
#[tactic(auto, unfolding(crate::specs::Waiters::waiter_after))]
pub(crate) fn waiter_after(waiter: ThreadRecord, goes: bool) -> ThreadRecord
    ensures { result ≡ waiter_after waiter (ticks_after waiter.ticks) goes }
{
    let after = ThreadRecord {
        ticks: ticks_after(waiter.ticks),
        next: 0,
        ..waiter
    };
    if goes { moved(after) } else { after }
}
