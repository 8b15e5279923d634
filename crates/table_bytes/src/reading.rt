// A table read from its bytes, whole or one record of it, and whether bytes are a table. A thread's record and an object's are read by functions of their
// own, whose clauses name `thread_at` and `object_at`; what they share is `place_of` and `record_at`.
ghost use Rattle.std.specs.Prelude.{◌≡◌};
ghost use Rattle.lock_table.specs.Access.{thread_at, object_at};
ghost use Rattle.table_bytes.specs.Reading.{table_of, is_table};

use crate::layout::{OBJECTCOUNT_AT, OBJECTS_START, TABLE_SIZE, THREADCOUNT_AT, THREADS_START};
use crate::records::{all_known, place_of, read_records, record_at};
use lock_table::{OBJECTS, ObjectRecord, THREADS, Table, ThreadRecord, no_object, no_thread};

// The table that the bytes say; too few say the empty table. It is filled where it lies: each array or table in a local of its own would be as much
// stack again.
pub fn read_table(bytes: &[u8]) -> Table
    ensures { result ≡ table_of bytes.now }
{
    let mut table = Table {
        threadcount: 0,
        objectcount: 0,
        threads: [no_thread(); THREADS as usize],
        objects: [no_object(); OBJECTS as usize],
    };
    if bytes.len() < TABLE_SIZE {
        return table;
    }
    table.threadcount = bytes[THREADCOUNT_AT];
    table.objectcount = bytes[OBJECTCOUNT_AT];
    read_records(bytes, THREADS_START, &mut table.threads);
    read_records(bytes, OBJECTS_START, &mut table.objects);
    table
}

// One thread's record of the table that the bytes say.
#[tactic(auto, using(crate::proofs::Enough::numbered_none), unfolding(lock_table::specs::Access::thread_at))]
pub fn read_thread(bytes: &[u8], number: u8) -> ThreadRecord
    ensures { result ≡ thread_at (table_of bytes.now) number }
{
    if bytes.len() < TABLE_SIZE {
        return no_thread();
    }
    match place_of(number, THREADS) {
        Some(place) => record_at(bytes, THREADS_START, place),
        None => no_thread(),
    }
}

// One object's record of the table that the bytes say.
#[tactic(auto, using(crate::proofs::Enough::enough_none, crate::proofs::Enough::empty_object, crate::proofs::Enough::numbered_none), unfolding(lock_table::specs::Access::object_at))]
pub fn read_object(bytes: &[u8], number: u8) -> ObjectRecord
    ensures { result ≡ object_at (table_of bytes.now) number }
{
    if bytes.len() < TABLE_SIZE {
        return no_object();
    }
    match place_of(number, OBJECTS) {
        Some(place) => record_at(bytes, OBJECTS_START, place),
        None => no_object(),
    }
}

// Whether the bytes are a table.
#[tactic(auto, unfolding(crate::specs::Reading::is_table))]
pub fn is_table(bytes: &[u8]) -> bool
    ensures { result ≡ is_table bytes.now }
{
    bytes.len() == TABLE_SIZE
        && all_known::<ThreadRecord, _>(bytes, THREADS_START, THREADS.into())
        && all_known::<ObjectRecord, _>(bytes, OBJECTS_START, OBJECTS.into())
}
