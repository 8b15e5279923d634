// A chain parted in one pass: each of its threads stays in it or goes, and those that go are chained together or are in no chain. No table is looked at:
// lock_work, which is lent it, goes along the chain and asks here who stands behind whom.
ghost use Rattle.std.specs.Prelude.{◌≡◌};
ghost use Rattle.lock_perform.specs.Parting.{no_parting, last_behind, taken_with, passed};
ghost use Rattle.lock_perform.specs.InPlace.{linked_to};

use crate::moving::if_record;
use crate::thread_set::thread_set;
use chains::{Ends, no_ends};
use lock_table::ThreadRecord;

// The chain of those that stay, that of those that go, if they go together, and the set of those that go.
#[derive(Clone, Copy)]
pub struct Parting {
    pub left: Ends,
    pub taken: Ends,
    pub set: u32,
}

pub fn no_parting() -> Parting
    ensures { result ≡ no_parting }
{
    Parting {
        left: no_ends(),
        taken: no_ends(),
        set: 0,
    }
}

// The last thread of the chain that a thread joins, 0 where it joins none or is the first.
#[tactic(auto, unfolding(crate::specs::Parting::last_behind))]
pub fn last_behind(parting: Parting, goes: bool) -> u8
    ensures { result ≡ last_behind parting goes }
{
    if goes {
        parting.taken.last
    } else {
        parting.left.last
    }
}

#[tactic(auto, unfolding(crate::specs::Parting::taken_with))]
fn taken_with(together: bool, taken: Ends, thread: u8) -> Ends
    ensures { result ≡ taken_with together taken thread }
{
    if together { taken.grown(thread) } else { taken }
}

// The parting with one more thread, which stays or goes.
#[tactic(auto, unfolding(crate::specs::Parting::passed))]
pub fn passed(together: bool, parting: Parting, goes: bool, thread: u8) -> Parting
    ensures { result ≡ passed together parting goes thread }
{
    if goes {
        Parting {
            taken: taken_with(together, parting.taken, thread),
            set: parting.set | thread_set(thread),
            ..parting
        }
    } else {
        Parting {
            left: parting.left.grown(thread),
            ..parting
        }
    }
}

// The record at the place of the last thread of a chain, with this thread behind it; where the chain is empty, nobody's record is changed.
pub fn linked_to(last: u8, there: ThreadRecord, thread: u8) -> ThreadRecord
    ensures { result ≡ linked_to last there thread }
{
    if_record(last, there.with_next(thread), there)
}
