// The word reader. Thread numbers and monitor numbers are made here alone, each by the reader of its kind of word.
ghost use Rattle.std.specs.Prelude.{◌≡◌};
ghost use Rattle.lock_word.specs.Read.{read_word, read_flat, read_reserved, fat_of};
ghost use Rattle.lock_word.specs.KindTable.{by_kind};

use crate::kinds::{Kind, count_field, kind_of};
use crate::layout::{FIRST_BEYOND, NUMBER_UNIT};

// A thread's number and a monitor's number: the same fifteen bits, and neither can be passed for the other. Document 01 asks for two tuple structs, each
// made by the reader of its kind of word alone; so the fields are private to this file.
#[derive(Clone, Copy)]
pub struct ThreadNumber(u16);

#[derive(Clone, Copy)]
pub struct MonitorNumber(u16);

// What a lock word says.
#[derive(Clone, Copy)]
pub enum LockWord {
    Free,
    // the thread, and its nested count: it owns the object at depth count + 1
    Flat(ThreadNumber, u8),
    Anonymous,
    // reserved for the thread, which owns the object at depth count if that is above 0
    Reserved(ThreadNumber, u8),
    Fat(MonitorNumber),
}

impl ThreadNumber {
    pub fn value(self) -> u16
        ensures { result ≡ self.0 }
    {
        self.0
    }
}

impl MonitorNumber {
    pub fn value(self) -> u16
        ensures { result ≡ self.0 }
    {
        self.0
    }
}

// A flat word of this count and number. A reserved one below differs in both words that it can say, which are all that a function of the two would hold.
#[tactic(auto, unfolding(crate::specs::Read::read_flat))]
fn read_flat(count: u8, number: u16) -> Option<LockWord>
    ensures { result ≡ read_flat count number }
{
    match (number, count) {
        (0, 0) => Some(LockWord::Free),
        (0, _) => None,
        _ => Some(LockWord::Flat(ThreadNumber(number), count)),
    }
}

// A reserved word of this count and number.
#[tactic(auto, unfolding(crate::specs::Read::read_reserved))]
fn read_reserved(count: u8, number: u16) -> Option<LockWord>
    ensures { result ≡ read_reserved count number }
{
    match (number, count) {
        (0, 0) => Some(LockWord::Anonymous),
        (0, _) => None,
        _ => Some(LockWord::Reserved(ThreadNumber(number), count)),
    }
}

// A fat word of this number. No object has number 0.
#[tactic(auto, unfolding(crate::specs::Read::fat_of))]
fn read_fat(number: u16) -> Option<LockWord>
    ensures { result ≡ fat_of number }
{
    if number == 0 {
        return None;
    }
    Some(LockWord::Fat(MonitorNumber(number)))
}

// The kind picks the reader.
#[tactic(auto, unfolding(crate::specs::KindTable::by_kind))]
fn by_kind(kind: Option<Kind>, count: u8, number: u16) -> Option<LockWord>
    ensures { result ≡ by_kind kind count number }
{
    match kind? {
        Kind::Flat => read_flat(count, number),
        Kind::Reserved => read_reserved(count, number),
        Kind::Fat => read_fat(number),
    }
}

// What the word means; None, it is no lock word.
#[tactic(auto, using(crate::proofs::KindTable::beyond, crate::proofs::KindTable::read_by_kind))]
pub fn read_word(word: u32) -> Option<LockWord>
    ensures { result ≡ read_word word }
{
    if FIRST_BEYOND <= word {
        return None;
    }
    let low = (word % NUMBER_UNIT) as u8;
    by_kind(kind_of(low), count_field(low), (word / NUMBER_UNIT) as u16)
}
