// Walks along a chain of a table, which change its threads where they stand.
ghost use Rattle.std.specs.Prelude.{◌≡◌, Bool, true, false};
ghost use Rattle.lock_table.specs.Limits.{thread_limit};
ghost use Rattle.lock_table.specs.Chain.{move_all};
ghost use Rattle.lock_perform.specs.Queueing.{queue};
ghost use Rattle.lock_table.specs.declared.record.ThreadRecord.{ThreadRecord};
ghost use Rattle.lock_perform.specs.Parting.{no_parting, part_chain};
ghost use Rattle.lock_perform.specs.Moving.{queued_exit, let_out, exits_parted};
ghost use Rattle.lock_work.specs.Waiters.{waiter_goes, waiter_ticked, part_waiters};

use crate::waiters::{runs_out, waiter_after};
use chains::Chain;
use lock_perform::{
    Parting, first_at, joining_rank, last_behind, let_out, linked_to, no_parting, passed,
    place_for, queued_exit,
};
use lock_table::{THREADS, Table, ThreadRecord, is_thread, moved, thread_place};

// All threads of the chain from `first` on take phase 5; their next indexes stay.
pub(crate) fn move_all(table: &mut Table, first: u8)
    ensures { table.new ≡ move_all thread_limit table.old first }
{
    let mut at = first;
    for _ in 0..THREADS {
        if !is_thread(at) {
            break;
        }
        let spot = usize::from(at - 1);
        let thread = table.threads[spot];
        table.threads[spot] = moved(thread);
        at = thread.next;
    }
}

// Each thread from `back` on joins the chain that begins with `begins`, at its place; the first of that chain then.
#[tactic(auto, using(lock_table::proofs::Places::place_inside))]
pub(crate) fn queue(table: &mut Table, into: Chain, begins: u8, back: u8) -> u8
    ensures table { table.new ≡ (queue into thread_limit table.old begins back).table }
    ensures first { result ≡ (queue into thread_limit table.old begins back).first }
{
    let mut first = begins;
    let mut at = back;
    for _ in 0..THREADS {
        if !is_thread(at) {
            break;
        }
        let spot = usize::from(at - 1);
        let joining = table.threads[spot];
        let place = place_for(&table.threads, first, joining_rank(into, joining));
        table.threads[spot] = joining.with_next(place.here);
        let behind = thread_place(place.last);
        table.threads[behind] = linked_to(place.last, table.threads[behind], at);
        first = first_at(place.last, first, at);
        at = joining.next;
    }
    first
}

// Who leaves a chain, and what becomes of the record of a thread that stays or leaves.
trait Leaving {
    ghost goes: { ThreadRecord → Bool };

    ghost after: { ThreadRecord → Bool → ThreadRecord };

    ghost TOGETHER: { Bool };

    // Whether those that leave are chained together.
    const TOGETHER: bool;

    fn goes(thread: ThreadRecord) -> bool
        ensures { result ≡ goes thread };

    fn after(thread: ThreadRecord, leaves: bool) -> ThreadRecord
        ensures { result ≡ after thread leaves };
}

// Exits that are queued for a monitor that is inflated.
struct Exits;

impl Leaving for Exits {
    ghost goes = { queued_exit };

    ghost after = { let_out };

    ghost TOGETHER = { false };

    const TOGETHER: bool = false;

    fn goes(thread: ThreadRecord) -> bool {
        queued_exit(thread)
    }

    fn after(thread: ThreadRecord, leaves: bool) -> ThreadRecord {
        let_out(thread, leaves)
    }
}

// Waiters whose time runs out at a tick.
struct Expired;

impl Leaving for Expired {
    ghost goes = { waiter_goes };

    ghost after = { waiter_ticked };

    ghost TOGETHER = { true };

    const TOGETHER: bool = true;

    fn goes(thread: ThreadRecord) -> bool {
        runs_out(thread)
    }

    fn after(thread: ThreadRecord, leaves: bool) -> ThreadRecord {
        waiter_after(thread, leaves)
    }
}

// Those of the chain from `first` on that leave it do, and the others stay in order.
#[tactic(auto, using(lock_table::proofs::Places::place_inside))]
fn part<L: Leaving>(table: &mut Table, first: u8) -> Parting
    ensures table { table.new ≡ (part_chain L.goes L.after L.TOGETHER thread_limit table.old no_parting first).table }
    ensures parting { result ≡ (part_chain L.goes L.after L.TOGETHER thread_limit table.old no_parting first).parting }
{
    let mut parting = no_parting();
    let mut at = first;
    for _ in 0..THREADS {
        if !is_thread(at) {
            break;
        }
        let spot = usize::from(at - 1);
        let thread = table.threads[spot];
        let goes = L::goes(thread);
        table.threads[spot] = L::after(thread, goes);
        let last = last_behind(parting, goes);
        let behind = thread_place(last);
        table.threads[behind] = linked_to(last, table.threads[behind], at);
        parting = passed(L::TOGETHER, parting, goes, at);
        at = thread.next;
    }
    parting
}

// The queued exits leave the entry chain that begins with `first`.
pub(crate) fn part_exits(table: &mut Table, first: u8) -> Parting
    ensures table { table.new ≡ (exits_parted table.old first).table }
    ensures parting { result ≡ (exits_parted table.old first).parting }
{
    part::<Exits>(table, first)
}

// A tick at the waiting chain that begins with `first`: those that run out leave it.
pub(crate) fn part_waiters(table: &mut Table, first: u8) -> Parting
    ensures table { table.new ≡ (part_waiters thread_limit table.old no_parting first).table }
    ensures parting { result ≡ (part_waiters thread_limit table.old no_parting first).parting }
{
    part::<Expired>(table, first)
}
