// Threads that join a chain, each at its place: the place is found by a walk along the records, and lock_work, which is lent the table, writes there.
ghost use Rattle.std.specs.Prelude.{◌≡◌, leb};
ghost use Rattle.laws.specs.Choice.{both, within};
ghost use Rattle.lock_table.specs.Limits.{thread_limit};
ghost use Rattle.lock_perform.specs.Queueing.{joining_rank, place_for, first_at};
ghost use Rattle.lock_perform.specs.InPlace.{record_in};

use chains::{Chain, Place};
use lock_table::{THREADS, ThreadRecord, is_thread, thread_place};

// The rank by which a thread joins a chain. Only the entry chain is by rank: by rank 0 nobody is passed.
pub fn joining_rank(chain: Chain, thread: ThreadRecord) -> u8
    ensures { result ≡ joining_rank chain thread }
{
    match chain {
        Chain::Entry => thread.rank,
        Chain::Contention | Chain::Waiting => 0,
    }
}

// Whether the walk to the place of one who joins goes on past `there`, the record of thread `here`: nobody of a lower rank stays before it.
fn stays_before(here: u8, there: ThreadRecord, rank: u8) -> bool
    ensures { result ≡ both (within 1 thread_limit here) (leb rank there.rank) }
{
    is_thread(here) & (rank <= there.rank)
}

// The place of one who joins by this rank, in the chain that begins with `first`.
pub fn place_for(threads: &[ThreadRecord; THREADS as usize], first: u8, rank: u8) -> Place
    ensures { result ≡ place_for thread_limit (record_in threads.now) rank 0 first }
{
    let mut place = Place {
        last: 0,
        here: first,
    };
    for _ in 0..THREADS {
        let there = threads[thread_place(place.here)];
        if !stays_before(place.here, there, rank) {
            break;
        }
        place = Place {
            last: place.here,
            here: there.next,
        };
    }
    place
}

// The first of a chain that this thread has joined behind `last`, 0 for in front.
#[tactic(auto, unfolding(crate::specs::Queueing::first_at))]
pub fn first_at(last: u8, first: u8, thread: u8) -> u8
    ensures { result ≡ first_at last first thread }
{
    if last == 0 { thread } else { first }
}
