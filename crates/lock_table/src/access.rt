// The records of a table by number, from 1. Number 0 and numbers past the end read as the empty record and write nothing.
ghost use Rattle.std.specs.Prelude.{◌≡◌, ◌-◌, get_or, set, eqb};
ghost use Rattle.laws.specs.Choice.{pick, within};
ghost use Rattle.lock_table.specs.Limits.{thread_limit};
ghost use Rattle.lock_table.specs.Access.{thread_at, set_thread, object_at, set_object};
ghost use Rattle.lock_table.specs.Place.{place_within, thread_place, object_place};

use crate::record::{OBJECTS, ObjectRecord, THREADS, Table, ThreadRecord, no_object, no_thread};

// Whether a thread's record has this number.
pub fn is_thread(number: u8) -> bool
    ensures { result ≡ within 1 thread_limit number }
{
    (1..=THREADS).contains(&number)
}

// Of records numbered from 1 the one with this number, else `none`.
fn record_at<T: Copy>(records: &[T], number: u8, none: T) -> T
    ensures { result ≡ pick (eqb number 0) none (get_or records.now (number - 1) none) }
{
    match number {
        0 => none,
        _ => records
            .get(usize::from(number) - 1)
            .copied()
            .unwrap_or(none),
    }
}

// Another record for this number, if there is one.
fn set_record<T: Copy>(records: &mut [T], number: u8, value: T)
    ensures { records.new ≡ pick (eqb number 0) records.old (set records.old (number - 1) value) }
{
    let number = usize::from(number);
    if (1..=records.len()).contains(&number) {
        records[number - 1] = value;
    }
}

#[tactic(auto, unfolding(crate::specs::Access::thread_at))]
pub fn thread_at(table: &Table, number: u8) -> ThreadRecord
    ensures { result ≡ thread_at table.now number }
{
    record_at(&table.threads, number, no_thread())
}

#[tactic(auto, unfolding(crate::specs::Access::set_thread))]
pub fn set_thread(table: Table, number: u8, thread: ThreadRecord) -> Table
    ensures { result ≡ set_thread table number thread }
{
    let mut changed = table;
    set_record(&mut changed.threads, number, thread);
    changed
}

#[tactic(auto, unfolding(crate::specs::Access::object_at))]
pub fn object_at(table: &Table, number: u8) -> ObjectRecord
    ensures { result ≡ object_at table.now number }
{
    record_at(&table.objects, number, no_object())
}

#[tactic(auto, unfolding(crate::specs::Access::set_object))]
pub fn set_object(table: Table, number: u8, object: ObjectRecord) -> Table
    ensures { result ≡ set_object table number object }
{
    let mut changed = table;
    set_record(&mut changed.objects, number, object);
    changed
}

// Where the record of a number is in an array of `limit` records. A number that has none gets the first place;
// who reads there makes no use of it.
#[tactic(auto, unfolding(crate::specs::Place::place_within))]
fn place_within(limit: u8, number: u8) -> usize
    ensures { result ≡ place_within limit number }
{
    if (1..=limit).contains(&number) {
        usize::from(number - 1)
    } else {
        0
    }
}

pub fn thread_place(number: u8) -> usize
    ensures { result ≡ thread_place number }
{
    place_within(THREADS, number)
}

pub fn object_place(number: u8) -> usize
    ensures { result ≡ object_place number }
{
    place_within(OBJECTS, number)
}
