// Exits let out of the entry chain by an inflating rule (document 02, L2). No table is looked at: lock_work, which is lent it, goes along the chain and
// asks here what becomes of each record.
ghost use Rattle.std.specs.Prelude.{◌≡◌};
ghost use Rattle.lock_perform.specs.Moving.{queued_exit, let_out, lets_out};

use lock_rules::ChainWork;
use lock_table::{Onward, Phase, ThreadRecord, no_activity};

// Whether a thread is a queued exit: it carries 10.
#[tactic(auto, unfolding(lock_table::specs::Phase::carried_number, lock_table::specs::Phase::phase_number, lock_table::specs::Phase::onward_number))]
pub fn queued_exit(thread: ThreadRecord) -> bool
    ensures { result ≡ queued_exit thread }
{
    matches!(thread.phase, Phase::Queued(Onward::ToTell))
}

// A thread of the entry chain, in no chain yet: idle if it goes.
#[tactic(auto, unfolding(crate::specs::Moving::let_out))]
pub fn let_out(thread: ThreadRecord, goes: bool) -> ThreadRecord
    ensures { result ≡ let_out thread goes }
{
    let after = thread.with_next(0);
    if goes {
        after.with_activity(no_activity())
    } else {
        after
    }
}

// Whether a work lets the queued exits out.
pub fn lets_out(work: ChainWork) -> bool
    ensures { result ≡ lets_out work }
{
    matches!(work, ChainWork::MoveAndLetOut)
}
