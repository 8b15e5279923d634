// An event on a table: the two records that it touches are read in place, take their turn and are written back in place.
ghost use Rattle.std.specs.Prelude.{◌≡◌};
ghost use Rattle.lock_engine.specs.Handle.{turn_with, done_of, handle_trusting, handle, begin, step, tick_event};

use crate::outcome::{Done, Outcome};
use crate::turning::{Records, Turn};
use lock_gate::{event_object, event_thread};
use lock_perform::length_from;
use lock_rules::Event;
use lock_table::{ObjectRecord, THREADS, Table, ThreadRecord, object_place, thread_place};
use lock_work::{work_done, work_stays};

// What an event makes of the two records, of a table that is taken to be sound or not. The waiters are counted here, and nowhere else; where nobody
// waits there is nothing to walk.
#[tactic(auto, using(laws::proofs::Choice::either_way, crate::proofs::InPlace::none_wait))]
pub fn turn_with(
    table: &Table,
    event: Event,
    issound: bool,
    own: ThreadRecord,
    object: ObjectRecord,
) -> Turn
    ensures { result ≡ turn_with table.now event issound own object }
{
    let mut waiters: u8 = 0;
    if object.monitor.waiting != 0 {
        waiters = length_from(table, object.monitor.waiting);
    }
    let trusted = issound & (table.threadcount <= THREADS);
    Records { own, object }.take_turn(
        trusted,
        table.threadcount,
        table.objectcount,
        event,
        waiters,
    )
}

// An event carried out where the table stands, for a caller that knows whether it is sound: what `handle_trusting` gives, with the table left in its place.
#[tactic(auto, using(lock_table::proofs::Places::place_inside))]
pub fn handle_in_place(table: &mut Table, event: Event, issound: bool) -> Done
    ensures table { table.new ≡ (handle_trusting table.old event issound).table }
    ensures done { result ≡ done_of (handle_trusting table.old event issound) }
{
    let thread = event_thread(event);
    let place = thread_place(thread);
    let own = table.threads[place];
    let number = event_object(event, own.object);
    let home = object_place(number);
    let object = table.objects[home];
    let turn = turn_with(table, event, issound, own, object);
    let mut unparked: u32 = 0;
    if work_stays(turn.work) {
        table.threads[place] = turn.own;
        table.objects[home] = turn.object;
    } else {
        unparked = work_done(table, thread, number, turn.own, turn.object, turn.work);
    }
    Done {
        reply: turn.reply,
        commits: turn.commits,
        unparked,
    }
}

// For a caller that knows whether the table is sound.
pub fn handle_trusting(table: Table, event: Event, issound: bool) -> Outcome
    ensures { result ≡ handle_trusting table event issound }
{
    let mut changed = table;
    let done = handle_in_place(&mut changed, event, issound);
    Outcome {
        table: changed,
        reply: done.reply,
        commits: done.commits,
        unparked: done.unparked,
    }
}

// Every event on every table.
#[tactic(auto, unfolding(crate::specs::Handle::handle))]
pub fn handle(table: Table, event: Event) -> Outcome
    ensures { result ≡ handle table event }
{
    handle_trusting(table, event, lock_soundness::sound(table))
}

// The thread begins the operation with this number on the object; the limit is a timed wait's. Any number may be given: 17 refuses what is none.
pub fn begin(table: Table, thread: u8, operation: u8, object: u8, limit: u32) -> Outcome
    ensures { result ≡ begin table thread operation object limit }
{
    handle(
        table,
        Event::Begin {
            operation,
            thread,
            object,
            limit,
        },
    )
}

// The thread takes one step.
pub fn step(table: Table, thread: u8) -> Outcome
    ensures { result ≡ step table thread }
{
    handle(table, Event::Step { thread })
}

// The clock ticks.
pub fn tick_event(table: Table) -> Outcome
    ensures { result ≡ tick_event table }
{
    handle(table, Event::Tick)
}
