// What a rule sees of its object.
ghost use Rattle.std.specs.Prelude.{◌≡◌};
ghost use Rattle.chains.specs.Chain.{chain_length};
ghost use Rattle.lock_table.specs.Access.{next_of};
ghost use Rattle.lock_perform.specs.Sight.{sight_with};

use lock_rules::Sight;
use lock_table::{ObjectRecord, THREADS, Table};
use lock_word::WordSeen;

// How many threads are in the chain from `first` on.
pub fn length_from(table: &Table, first: u8) -> u8
    ensures { result ≡ chain_length 32 (next_of table.now) first }
{
    let mut at = first;
    for passed in 0..THREADS {
        if at == 0 {
            return passed;
        }
        if THREADS < at {
            return passed + 1;
        }
        at = table.threads[usize::from(at - 1)].next;
    }
    THREADS
}

pub fn sight_with(object: ObjectRecord, word: WordSeen, waiters: u8) -> Sight
    ensures { result ≡ sight_with object word waiters }
{
    Sight {
        word,
        flag: object.flag,
        holder: object.monitor.holder,
        depth: object.monitor.depth,
        entryempty: object.monitor.entry == 0,
        contentionempty: object.monitor.contention == 0,
        waiters,
    }
}
