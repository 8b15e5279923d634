// What soundness asks of one object's record.
ghost use Rattle.std.specs.Prelude.{◌≡◌};
ghost use Rattle.sound_records.specs.Records.{word_fits, unheld_fits, used_object_fits, empty_object};

use crate::choice::implies;
use lock_table::{Monitor, ObjectRecord, no_object};
use lock_word::LockWord;

// A valid word, with its thread at most `threads`; a fat word names its own object.
#[tactic(auto, unfolding(crate::specs::Records::word_fits))]
fn word_fits(threads: u8, number: u8, decoded: Option<LockWord>) -> bool
    ensures { result ≡ word_fits threads number decoded }
{
    match decoded {
        None => false,
        Some(LockWord::Free | LockWord::Anonymous) => true,
        Some(LockWord::Flat(thread, _) | LockWord::Reserved(thread, _)) => thread.value()
            <= u16::from(threads),
        Some(LockWord::Fat(monitor)) => monitor.value() == u16::from(number),
    }
}

// A monitor that nobody holds has depth 0 and nobody in its entry chain.
#[tactic(auto, unfolding(crate::specs::Records::unheld_fits))]
fn unheld_fits(monitor: Monitor) -> bool
    ensures { result ≡ unheld_fits monitor }
{
    implies(
        monitor.holder == 0,
        (monitor.depth == 0) & (monitor.entry == 0),
    )
}

// A row for each clause about an object's record.
pub fn used_object_fits(threads: u8, number: u8, object: ObjectRecord) -> bool
    ensures { result ≡ used_object_fits threads number object }
{
    let word = word_fits(threads, number, lock_word::read_word(object.word));
    let holder = object.monitor.holder <= threads;
    let unheld = unheld_fits(object.monitor);
    word & holder & unheld
}

#[tactic(auto, using(crate::proofs::Same::and_both, crate::proofs::Same::flag_down), unfolding(crate::specs::Records::empty_object, crate::specs::Records::empty_monitor))]
pub fn empty_object(object: ObjectRecord) -> bool
    ensures { result ≡ empty_object object }
{
    object == no_object()
}
