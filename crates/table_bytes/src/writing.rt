// A table written as bytes, whole or one record of it, by a function for each of the two kinds of record. One of both
// would ask of its caller that there is room for as many records, which the constants show here.
ghost use Rattle.std.specs.Prelude.{◌≡◌, length};
ghost use Rattle.table_bytes.specs.Layout.{table_size};
ghost use Rattle.table_bytes.specs.Writing.{bytes_of, kept_over, write_thread, write_object};

use crate::layout::{OBJECTCOUNT_AT, OBJECTS_START, TABLE_SIZE, THREADCOUNT_AT, THREADS_START};
use crate::records::{place_of, put_record, put_records};
use lock_table::{OBJECTS, ObjectRecord, THREADS, Table, ThreadRecord};

fn put_table(bytes: &mut [u8], table: Table)
    requires { length bytes.old ≡ table_size }
    ensures { bytes.new ≡ bytes_of table }
{
    bytes[THREADCOUNT_AT] = table.threadcount;
    bytes[OBJECTCOUNT_AT] = table.objectcount;
    put_records(bytes, THREADS_START, &table.threads);
    put_records(bytes, OBJECTS_START, &table.objects);
}

// Writes the table, if the bytes are as many as it has.
#[tactic(auto, unfolding(crate::specs::Writing::kept_over))]
pub fn write_table(bytes: &mut [u8], table: Table)
    ensures { bytes.new ≡ kept_over bytes.old table }
{
    if bytes.len() == TABLE_SIZE {
        put_table(bytes, table);
    }
}

// Stores one thread's record over the bytes of a table.
#[tactic(auto, unfolding(crate::specs::Writing::write_thread))]
pub fn write_thread(bytes: &mut [u8], number: u8, thread: ThreadRecord)
    ensures { bytes.new ≡ write_thread bytes.old number thread }
{
    if bytes.len() == TABLE_SIZE {
        if let Some(place) = place_of(number, THREADS) {
            put_record(bytes, THREADS_START, place, thread);
        }
    }
}

// Stores one object's record over the bytes of a table.
#[tactic(auto, unfolding(crate::specs::Writing::write_object))]
pub fn write_object(bytes: &mut [u8], number: u8, object: ObjectRecord)
    ensures { bytes.new ≡ write_object bytes.old number object }
{
    if bytes.len() == TABLE_SIZE {
        if let Some(place) = place_of(number, OBJECTS) {
            put_record(bytes, OBJECTS_START, place, object);
        }
    }
}
