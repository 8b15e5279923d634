// Soundness of a table (document 01, "Lock words", the sentence "Sound means"), in one pass: one loop over the object records, which walks their
// chains and marks the threads that it meets, and one over the thread records, in which a parked thread has to be marked. Each record is read once.
#![tactic(auto)]

mod chain;

ghost use Rattle.std.specs.Prelude.{◌≡◌};
ghost use Rattle.laws.specs.Every.{all_up_to};
ghost use Rattle.lock_table.specs.Limits.{thread_limit, object_limit};
ghost use Rattle.lock_soundness.specs.Sound.{sizes_fit, sound_of};
ghost use Rattle.lock_soundness.specs.OnePass.{chains_marks, object_passes, object_turn, objects_marks, thread_turn};

use chain::chains_pass;
use lock_table::{OBJECTS, ObjectRecord, THREADS, Table};
use sound_records::{empty_object, thread_passes, used_object_fits};

#[tactic(auto, unfolding(crate::specs::Sound::sizes_fit))]
fn sizes_fit(threads: u8, objects: u8) -> bool
    ensures { result ≡ sizes_fit threads objects }
{
    (1..=THREADS).contains(&threads) & (1..=OBJECTS).contains(&objects)
}

// An empty record passes at once, and most are. Any other is one of an object in use, with its chains.
#[tactic(auto, unfolding(crate::specs::OnePass::object_passes))]
fn object_passes(
    table: &Table,
    number: u8,
    object: ObjectRecord,
    met: &mut [bool; THREADS as usize],
) -> bool
    ensures value { result ≡ object_passes table.now.threads table.now.threadcount table.now.objectcount number object }
    ensures marks { met.new ≡ chains_marks table.now.threads table.now.threadcount number object.monitor met.old }
{
    if empty_object(object) {
        return true;
    }
    let fits = (number <= table.objectcount) & used_object_fits(table.threadcount, number, object);
    fits & chains_pass(table, number, object.monitor, met)
}

// Each object's record is in order, and so are its chains.
fn objects_pass(table: &Table, met: &mut [bool; THREADS as usize]) -> bool
    ensures value { result ≡ all_up_to object_limit (object_turn table.now) }
    ensures marks { met.new ≡ objects_marks table.now object_limit met.old }
{
    for number in (1..=OBJECTS).rev() {
        let object = table.objects[usize::from(number - 1)];
        if !object_passes(table, number, object, met) {
            return false;
        }
    }
    true
}

// Each thread's record is as its phase asks, and a parked thread was met in a walk.
fn threads_pass(table: &Table, met: &[bool; THREADS as usize]) -> bool
    ensures { result ≡ all_up_to thread_limit (thread_turn table.now met.now) }
{
    for number in (1..=THREADS).rev() {
        let place = usize::from(number - 1);
        let passes = thread_passes(
            table.threadcount,
            table.objectcount,
            number,
            table.threads[place],
            met[place],
        );
        if !passes {
            return false;
        }
    }
    true
}

// Whether the table is sound.
#[tactic(auto, using(crate::proofs::OnePass::one_pass_is), unfolding(crate::specs::OnePass::one_pass))]
pub fn sound(table: Table) -> bool
    ensures { result ≡ sound_of table }
{
    let sizes = sizes_fit(table.threadcount, table.objectcount);
    let mut met = [false; THREADS as usize];
    let objects = objects_pass(&table, &mut met);
    let threads = threads_pass(&table, &met);
    sizes & objects & threads
}
