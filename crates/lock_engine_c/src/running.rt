// A run: many events in one call. The bytes are read once, soundness is tested once, and the bytes are written once. An event and its answer have one
// index, up to the count that is given back.
ghost use Rattle.std.specs.Prelude.{◌≡◌, length};
ghost use Rattle.table_bytes.specs.Rows.{overwritten};
ghost use Rattle.lock_engine_c.specs.Run.{run_count, run_events, run_answers, run_bytes};

use crate::calls::{reply_changes, store};
use event_bytes::{event_of, packed};
use lock_engine::{handle_in_place, returned, woken};
use lock_soundness::sound;
use table_bytes::{is_table, read_table};

// Runs the events one behind the other, as calls of their own would. What is no table's, or not sound, stays so: it is tested
// once, and every event is answered 11.
pub fn duskclamp_run(bytes: &mut [u8], events: &[u8], answers: &mut [u64]) -> usize
    ensures value { result ≡ run_count (length events.now) (length answers.old) }
    ensures answers_after { answers.new ≡ overwritten 0 (run_answers bytes.old (run_events events.now answers.old)) answers.old }
    ensures bytes_after { bytes.new ≡ run_bytes bytes.old (run_events events.now answers.old) }
{
    let mut table = read_table(bytes);
    let issound = is_table(bytes) && sound(table);
    let (whole, _) = events.as_chunks();
    let count = whole.len().min(answers.len());
    let mut changed = false;
    for done in 0..count {
        let event = event_of(&whole[done]);
        let made = handle_in_place(&mut table, event, issound);
        let reply = made.reply;
        changed |= reply_changes(reply);
        answers[done] = packed(returned(reply), woken(reply), made.commits, made.unparked);
    }
    store(bytes, table, changed);
    count
}
