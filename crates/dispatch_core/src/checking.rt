// What refuses a run: 11, 25 and 26, in this order.
ghost use Rattle.std.specs.Prelude.{◌≡◌, ◌+◌};
ghost use Rattle.laws.specs.Every.{all_up_to, all_below};
ghost use Rattle.dispatch_rules.specs.Script.{operation_known, script_known, cursor_at};
ghost use Rattle.dispatch_rules.specs.Dispatch.{dispatch_answer, dispatch_returned, scripted};

use crate::script::{OPERATION_SIZE, operation_at};
use dispatch_rules::{DispatchRefusal, ScriptCursor};
use lock_engine::refusal_number;
use lock_rules::Refusal;
use lock_table::{THREADS, Table, thread_place};

const SCRIPT_OPERATIONS: u8 = 5;

const QUANTUM_LIMIT: u32 = 100;

// An operation of a script is known, and its object is one of the table's.
fn operation_known(scripts: &[u8], objects: u8, start: u32, place: u32) -> bool
    ensures { result ≡ operation_known scripts.now objects (start + place) }
{
    let (operation, object) = operation_at(scripts, start, place);
    1 <= operation && operation <= SCRIPT_OPERATIONS && 1 <= object && object <= objects
}

// A loop here and in `each_known`: of `(0..length).all(..)` it stayed open that what the iterator goes through is `all_below`. From the last to the first, so
// that a script that was cut off too late is refused at once.
fn operations_known(scripts: &[u8], objects: u8, start: u32, length: u32) -> bool
    ensures { result ≡ all_below length (λ i. operation_known scripts.now objects (start + i)) }
{
    for place in (0..length).rev() {
        if !operation_known(scripts, objects, start, place) {
            return false;
        }
    }
    true
}

// A script is among the operations lent, its cursor is not past its end, and all of it is known.
#[tactic(auto, unfolding(dispatch_rules::specs::Script::script_known))]
fn script_known(scripts: &[u8], objects: u8, cursor: ScriptCursor) -> bool
    ensures { result ≡ script_known scripts.now objects cursor }
{
    let lent = scripts.len() / OPERATION_SIZE;
    let end = cursor.start as usize + cursor.length as usize;
    end <= lent
        && cursor.cursor <= cursor.length
        && operations_known(scripts, objects, cursor.start, cursor.length)
}

// So is each of the threads', from the last to the first.
#[tactic(auto, using(lock_table::proofs::Places::place_inside))]
fn each_known(
    scripts: &[u8],
    threads: u8,
    objects: u8,
    cursors: [ScriptCursor; THREADS as usize],
) -> bool
    ensures { result ≡ all_up_to threads (λ n. script_known scripts.now objects (cursor_at cursors n)) }
{
    for number in (1..=threads).rev() {
        if !script_known(scripts, objects, cursors[thread_place(number)]) {
            return false;
        }
    }
    true
}

// Whether a run is refused, before anything runs.
pub(crate) fn dispatch_answer(
    table: Table,
    quantum: u32,
    scripts: &[u8],
    cursors: [ScriptCursor; THREADS as usize],
    lent: usize,
) -> Result<(), DispatchRefusal>
    ensures { result ≡ dispatch_answer scripts.now quantum lent (scripted table cursors) }
{
    if !lock_soundness::sound(table) {
        return Err(DispatchRefusal::NotSound);
    }
    if !(1 <= quantum && quantum <= QUANTUM_LIMIT) {
        return Err(DispatchRefusal::QuantumOutOfRange);
    }
    let threads = table.threadcount;
    if lent == usize::from(threads) && each_known(scripts, threads, table.objectcount, cursors) {
        return Ok(());
    }
    Err(DispatchRefusal::ScriptUnknown)
}

// Document 02's number for the answer. It is no From: the refusals stand in `dispatch_rules`, which has types and definitions and no function.
#[tactic(auto, unfolding(dispatch_rules::specs::Dispatch::dispatch_returned))]
pub fn dispatch_returned(answer: Result<(), DispatchRefusal>) -> u8
    ensures { result ≡ dispatch_returned answer }
{
    match answer {
        Ok(()) => 0,
        Err(DispatchRefusal::NotSound) => refusal_number(Refusal::NotSound),
        Err(DispatchRefusal::QuantumOutOfRange) => 25,
        Err(DispatchRefusal::ScriptUnknown) => 26,
    }
}
