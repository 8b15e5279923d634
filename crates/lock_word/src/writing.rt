// The word writers: one for each meaning. Fifteen bits of a number and six of a count are written.
ghost use Rattle.std.specs.Prelude.{◌≡◌};
ghost use Rattle.lock_word.specs.Write.{write_word, free_word, anonymous_word, flat_word, reserved_word, fat_word};

use crate::layout::{COUNT_UNIT, COUNTS, NUMBER_UNIT, NUMBERS, RESERVED_BIT};
use crate::reading::LockWord;

pub fn free_word() -> u32
    ensures { result ≡ free_word }
{
    0
}

pub fn anonymous_word() -> u32
    ensures { result ≡ anonymous_word }
{
    RESERVED_BIT
}

pub fn flat_word(thread: u16, count: u8) -> u32
    ensures { result ≡ flat_word thread count }
{
    u32::from(thread) % NUMBERS * NUMBER_UNIT + u32::from(count % COUNTS) * u32::from(COUNT_UNIT)
}

pub fn reserved_word(thread: u16, count: u8) -> u32
    ensures { result ≡ reserved_word thread count }
{
    flat_word(thread, count) + RESERVED_BIT
}

pub fn fat_word(object: u16) -> u32
    ensures { result ≡ fat_word object }
{
    u32::from(object) % NUMBERS * NUMBER_UNIT + 1
}

// The word that is written for a meaning.
#[tactic(auto, unfolding(crate::specs::Write::write_word))]
pub fn write_word(meaning: LockWord) -> u32
    ensures { result ≡ write_word meaning }
{
    match meaning {
        LockWord::Free => free_word(),
        LockWord::Flat(thread, count) => flat_word(thread.value(), count),
        LockWord::Anonymous => anonymous_word(),
        LockWord::Reserved(thread, count) => reserved_word(thread.value(), count),
        LockWord::Fat(monitor) => fat_word(monitor.value()),
    }
}
