// The calls that change a table: a fresh one, a begin, a timed wait, a step, a tick. Each reads the bytes, asks the engine and writes what it gave back.
ghost use Rattle.std.specs.Prelude.{◌≡◌};
ghost use Rattle.lock_rules.specs.Operations.{timed_wait};
ghost use Rattle.lock_engine.specs.Handle.{handle};
ghost use Rattle.lock_table.specs.Fresh.{fresh_of};
ghost use Rattle.table_bytes.specs.Layout.{table_size};
ghost use Rattle.table_bytes.specs.Reading.{is_table, table_of};
ghost use Rattle.lock_engine_c.specs.Calls.{event_answer, event_bytes, RefusedTo, RefusedLeaves};
ghost use Rattle.lock_engine_c.specs.Calls.{reply_changes, stored_over, store_turn, event_over};
ghost use Rattle.lock_engine_c.specs.Calls.{begun_on, stepped_on, ticked_on, fresh_on, has_size, fresh_answer, fresh_bytes};

use event_bytes::packed;
use lock_engine::{Reply, refusal_number, returned, turn_with, woken};
use lock_gate::{TIMED_WAIT, event_object, event_thread};
use lock_rules::{Answer, Event, Refusal};
use lock_soundness::sound;
use lock_table::{FreshRequest, Table, fresh, fresh_returned, narrow, sized_request};
use lock_work::{work_done, work_stays};
use table_bytes::{
    TABLE_SIZE, is_table, read_object, read_table, read_thread, write_object, write_table,
    write_thread,
};

const NO_LIMIT: u32 = 0;

#[tactic(auto, unfolding(crate::specs::Calls::reply_changes, crate::specs::Calls::answer_changes))]
pub(crate) fn reply_changes(reply: Reply) -> bool
    ensures { result ≡ reply_changes reply }
{
    !matches!(reply, Reply::Refused(_) | Reply::Answered(Answer::NoRule))
}

#[tactic(auto, unfolding(crate::specs::Calls::stored_over))]
pub(crate) fn store(bytes: &mut [u8], table: Table, changed: bool)
    ensures { bytes.new ≡ stored_over changed bytes.old table }
{
    if changed {
        write_table(bytes, table);
    }
}

// On bytes that are a table, the event on the table that they say. Nothing is stored where nothing changed, so that a refused event, which leaves no
// work, can be tried on memory that may only be read; and no more than the two records where there is no more work, each by its place in the bytes, as it
// is read.
#[tactic(auto, using(laws::proofs::Choice::either_way, crate::proofs::EventTurns::turn_answers, crate::proofs::EventTurns::turn_stores), unfolding(crate::specs::Calls::store_turn))]
fn handle_event(bytes: &mut [u8], event: Event) -> u64
    ensures value { result ≡ event_answer (is_table bytes.old) (handle (table_of bytes.old) event) }
    ensures bytes_after { bytes.new ≡ event_over (is_table bytes.old) bytes.old (table_of bytes.old) event }
{
    if !is_table(bytes) {
        return refusal_number(Refusal::NotSound).into();
    }
    let mut table = read_table(bytes);
    let issound = sound(table);
    let thread = event_thread(event);
    let own = read_thread(bytes, thread);
    let number = event_object(event, own.object);
    let object = read_object(bytes, number);
    let turn = turn_with(&table, event, issound, own, object);
    let reply = turn.reply;
    let mut unparked: u32 = 0;
    if work_stays(turn.work) {
        if reply_changes(reply) {
            write_thread(bytes, thread, turn.own);
            write_object(bytes, number, turn.object);
        }
    } else {
        unparked = work_done(&mut table, thread, number, turn.own, turn.object, turn.work);
        write_table(bytes, table);
    }
    packed(returned(reply), woken(reply), turn.commits, unparked)
}

// On as many bytes as a table has, a fresh table as asked.
#[tactic(auto, using(laws::proofs::Choice::either_way, crate::proofs::FreshWritten::fresh_written), unfolding(crate::specs::Calls::keep_made, lock_table::specs::Fresh::fresh_returned))]
pub(crate) fn make_fresh(bytes: &mut [u8], request: FreshRequest) -> u32
    ensures value { result ≡ fresh_answer (has_size bytes.old) (fresh_of request) }
    ensures bytes_after { bytes.new ≡ fresh_bytes (has_size bytes.old) bytes.old (fresh_of request) }
{
    if bytes.len() != TABLE_SIZE {
        return refusal_number(Refusal::NotSound).into();
    }
    match fresh(request) {
        Ok(table) => {
            write_table(bytes, table);
            fresh_returned(Ok(())).into()
        }
        Err(refusal) => fresh_returned(Err(refusal)).into(),
    }
}

// How many bytes a table has.
pub fn duskclamp_table_size() -> usize
    ensures { result ≡ table_size }
{
    TABLE_SIZE
}

// A fresh table with every word free, or with `reserved` not 0 anonymously reserved: 0, or 11 or 22 and the bytes stay.
#[tactic(auto, using(lock_table::proofs::Narrowed::narrow_fresh))]
pub fn duskclamp_fresh(bytes: &mut [u8], threads: u32, objects: u32, reserved: u32) -> u32
    ensures value { result ≡ fresh_answer (has_size bytes.old) (fresh_on threads objects reserved) }
    ensures bytes_after { bytes.new ≡ fresh_bytes (has_size bytes.old) bytes.old (fresh_on threads objects reserved) }
{
    let request = sized_request(
        narrow(threads).into(),
        narrow(objects).into(),
        reserved != 0,
    );
    make_fresh(bytes, request)
}

// The thread begins the operation with this number on the object, without a limit. Refused, it leaves every byte, and its answer
// carries no set.
#[tactic(auto, using(lock_engine::proofs::Narrow::narrow_begin, crate::proofs::RefusedBytes::begin_promised))]
pub fn duskclamp_begin(bytes: &mut [u8], thread: u32, operation: u32, object: u32) -> u64
    ensures value { result ≡ event_answer (is_table bytes.old) (begun_on bytes.old thread operation object 0) }
    ensures bytes_after { bytes.new ≡ event_bytes (is_table bytes.old) bytes.old (begun_on bytes.old thread operation object 0) }
    ensures refused_to { RefusedTo bytes.old bytes.new result }
{
    let event = Event::Begin {
        operation: narrow(operation),
        thread: narrow(thread),
        object: narrow(object),
        limit: NO_LIMIT,
    };
    handle_event(bytes, event)
}

// The thread begins a timed wait on the object, with this limit in ticks. Refused, it leaves every byte, and its answer carries no set.
#[tactic(auto, using(lock_engine::proofs::Narrow::narrow_begin, crate::proofs::RefusedBytes::begin_promised), unfolding(lock_table::specs::Narrow::narrow_of))]
pub fn duskclamp_timed_wait(bytes: &mut [u8], thread: u32, object: u32, limit: u32) -> u64
    ensures value { result ≡ event_answer (is_table bytes.old) (begun_on bytes.old thread timed_wait object limit) }
    ensures bytes_after { bytes.new ≡ event_bytes (is_table bytes.old) bytes.old (begun_on bytes.old thread timed_wait object limit) }
    ensures refused_to { RefusedTo bytes.old bytes.new result }
{
    let event = Event::Begin {
        operation: TIMED_WAIT,
        thread: narrow(thread),
        object: narrow(object),
        limit,
    };
    handle_event(bytes, event)
}

// The thread takes one step. Refused, it leaves every byte, and its answer carries no set; with 18 and 19, every byte but those of the thread's record.
#[tactic(auto, using(lock_engine::proofs::Narrow::narrow_step, crate::proofs::RefusedBytes::step_promised))]
pub fn duskclamp_step(bytes: &mut [u8], thread: u32) -> u64
    ensures value { result ≡ event_answer (is_table bytes.old) (stepped_on bytes.old thread) }
    ensures bytes_after { bytes.new ≡ event_bytes (is_table bytes.old) bytes.old (stepped_on bytes.old thread) }
    ensures refused_leaves { RefusedLeaves bytes.old thread bytes.new result }
{
    let event = Event::Step {
        thread: narrow(thread),
    };
    handle_event(bytes, event)
}

// One tick of the clock. Refused, it leaves every byte, and its answer carries no set.
#[tactic(auto, using(crate::proofs::RefusedBytes::tick_promised))]
pub fn duskclamp_tick(bytes: &mut [u8]) -> u64
    ensures value { result ≡ event_answer (is_table bytes.old) (ticked_on bytes.old) }
    ensures bytes_after { bytes.new ≡ event_bytes (is_table bytes.old) bytes.old (ticked_on bytes.old) }
    ensures refused_to { RefusedTo bytes.old bytes.new result }
{
    handle_event(bytes, Event::Tick)
}
