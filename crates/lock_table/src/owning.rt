// Who owns an object of a table, and how deep.
ghost use Rattle.std.specs.Prelude.{◌≡◌};
ghost use Rattle.lock_table.specs.Ownership.{ownership_in, ownership_by, ownership_at};

use crate::access::object_at;
use crate::record::{Monitor, ObjectRecord, Table};
use lock_word::{LockWord, Ownership, ownership_of, read_word, seen_word};

#[tactic(auto, unfolding(crate::specs::Ownership::ownership_in))]
fn ownership_in(decoded: Option<LockWord>, monitor: Monitor) -> Ownership
    ensures { result ≡ ownership_in decoded monitor }
{
    match decoded {
        Some(word) => ownership_of(seen_word(word), monitor.holder, monitor.depth),
        None => Ownership {
            thread: 0,
            depth: 0,
        },
    }
}

fn ownership_by(object: ObjectRecord) -> Ownership
    ensures { result ≡ ownership_by object }
{
    ownership_in(read_word(object.word), object.monitor)
}

// The owner of the object with this number, and its depth; 0 and 0 where nobody owns it.
pub fn ownership_at(table: &Table, number: u8) -> Ownership
    ensures { result ≡ ownership_at table.now number }
{
    ownership_by(object_at(table, number))
}
