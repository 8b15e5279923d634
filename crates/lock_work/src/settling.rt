// What an event leaves to be done to the table besides its two records, done where the table stands. A rule's work is on the chains of its object: walks
// along a chain are lent the table, and functions of records say what becomes of each record. A tick's is on every waiting chain.
ghost use Rattle.std.specs.Prelude.{◌≡◌};
ghost use Rattle.lock_work.specs.Work.{work_stays, chains_done, work_done};

use crate::ticking::tick;
use crate::walking::{move_all, part_exits, queue};
use lock_perform::{lets_out, moved_whole, object_written, own_written, plan_at, stays, touched};
use lock_rules::ChainWork;
use lock_table::{LetOut, ObjectRecord, Table, ThreadRecord, object_place, thread_place};

#[derive(Clone, Copy)]
pub enum Work {
    Chains(ChainWork), // a rule's, on the chains of its object
    Tick, // on every waiting chain
}

// Whether the two records of the event are all that it changes.
#[tactic(auto, unfolding(crate::specs::Work::work_stays))]
pub fn work_stays(work: Work) -> bool
    ensures { result ≡ work_stays work }
{
    match work {
        Work::Chains(chains) => stays(chains),
        Work::Tick => false,
    }
}

// A rule's work done, and both records written: the thread's with the next index and the object's with the chains that the work gave. First the threads of a
// chain that moves whole are changed, then one record is, and those that join a chain are put at their places; at last exits are let out.
#[tactic(auto, using(lock_table::proofs::Places::place_inside))]
fn chains_done(
    table: &mut Table,
    thread: u8,
    number: u8,
    own: ThreadRecord,
    object: ObjectRecord,
    work: ChainWork,
) -> u32
    ensures table { table.new ≡ (chains_done table.old thread number own object work).table }
    ensures unparked { result ≡ (chains_done table.old thread number own object work).unparked }
{
    let whole = moved_whole(work, object.monitor);
    if whole != 0 {
        move_all(table, whole);
    }
    let place = thread_place(touched(work, object.monitor));
    let planned = plan_at(work, object.monitor, thread, number, table.threads[place]);
    table.threads[place] = planned.changed;
    let begins = planned.monitor.first_in(planned.into);
    let first = queue(table, planned.into, begins, planned.back);
    let joined = planned.monitor.join(planned.into, first);
    let out = if lets_out(work) {
        let parting = part_exits(table, joined.entry);
        joined.let_out(parting.left.first, parting.set)
    } else {
        LetOut {
            monitor: joined,
            threads: planned.unparked,
        }
    };
    let place = thread_place(thread);
    table.threads[place] = own_written(thread, own, table.threads[place]);
    let home = object_place(number);
    table.objects[home] = object_written(number, object, out.monitor, table.objects[home]);
    out.threads
}

// The work of an event that leaves some, done to the table; the set of threads that it unparked.
#[tactic(auto, unfolding(crate::specs::Work::work_done))]
pub fn work_done(
    table: &mut Table,
    thread: u8,
    number: u8,
    own: ThreadRecord,
    object: ObjectRecord,
    work: Work,
) -> u32
    ensures table { table.new ≡ (work_done work table.old thread number own object).table }
    ensures unparked { result ≡ (work_done work table.old thread number own object).unparked }
{
    match work {
        Work::Chains(chains) => chains_done(table, thread, number, own, object, chains),
        Work::Tick => tick(table),
    }
}
