// What a word says to the rules, who owns an object by it, and what cancelling its reservation makes of it.
ghost use Rattle.std.specs.Prelude.{◌≡◌};
ghost use Rattle.lock_word.specs.Meaning.{seen_word, kept_count, owner_of, depth_of, owned_by, ownership_of, cancelled, rewritten_of, cancel_of, cancel_read};

use crate::depth::Depth;
use crate::reading::{LockWord, read_word};
use crate::writing::{anonymous_word, flat_word, free_word, reserved_word};

// A lock word as the rules see it. The numbers are a thread and a count; a fat word's number is its object.
#[derive(Clone, Copy)]
pub enum WordSeen {
    Free,
    Anonymous, // reserved for nobody yet
    Fat,
    Flat(u16, u8), // owned by the thread, at depth count + 1
    Reserved(u16, u8), // reserved for the thread, and owned by it at depth count if that is above 0
}

// The thread that owns an object, and its depth; 0 and 0 where nobody does, as document 01 has it of every table and C is told.
#[derive(Clone, Copy)]
pub struct Ownership {
    pub thread: u16,
    pub depth: Depth,
}

#[tactic(auto, unfolding(crate::specs::Meaning::seen_word))]
pub fn seen_word(word: LockWord) -> WordSeen
    ensures { result ≡ seen_word word }
{
    match word {
        LockWord::Free => WordSeen::Free,
        LockWord::Flat(thread, count) => WordSeen::Flat(thread.value(), count),
        LockWord::Anonymous => WordSeen::Anonymous,
        LockWord::Reserved(thread, count) => WordSeen::Reserved(thread.value(), count),
        LockWord::Fat(_) => WordSeen::Fat,
    }
}

// The count of a kept word, which in a sound table is reserved.
#[tactic(auto, unfolding(crate::specs::Meaning::kept_count))]
pub fn kept_count(decoded: Option<LockWord>) -> u8
    ensures { result ≡ kept_count decoded }
{
    match decoded {
        Some(LockWord::Reserved(_, count)) => count,
        _ => 0,
    }
}

// The owner by the word, and of a fat word by its monitor's holder and depth; 0 for nobody.
pub fn owner_of(word: WordSeen, holder: u8, depth: Depth) -> u16
    ensures { result ≡ owner_of word holder depth }
{
    match word {
        WordSeen::Fat if depth != 0 => u16::from(holder),
        WordSeen::Flat(thread, _) => thread,
        WordSeen::Reserved(thread, count) if count != 0 => thread,
        _ => 0,
    }
}

fn depth_of(word: WordSeen, depth: Depth) -> Depth
    ensures { result ≡ depth_of word depth }
{
    match word {
        WordSeen::Fat => depth,
        WordSeen::Flat(_, count) => Depth::from(count) + 1,
        WordSeen::Reserved(_, count) => Depth::from(count),
        _ => 0,
    }
}

#[tactic(auto, unfolding(crate::specs::Meaning::owned_by))]
fn owned_by(owner: u16, depth: Depth) -> Ownership
    ensures { result ≡ owned_by owner depth }
{
    if owner == 0 {
        return Ownership {
            thread: 0,
            depth: 0,
        };
    }
    Ownership {
        thread: owner,
        depth,
    }
}

// Who owns the object, and how deep. Holder and depth are the monitor's.
pub fn ownership_of(word: WordSeen, holder: u8, depth: Depth) -> Ownership
    ensures { result ≡ ownership_of word holder depth }
{
    owned_by(owner_of(word, holder, depth), depth_of(word, depth))
}

// Cancelling a reservation (phase 3 of document 01). A word that is not reserved stays.

fn cancel_seen(word: WordSeen) -> WordSeen
    ensures { result ≡ cancelled word }
{
    match word {
        WordSeen::Anonymous | WordSeen::Reserved(_, 0) => WordSeen::Free,
        WordSeen::Reserved(thread, count) => WordSeen::Flat(thread, count - 1),
        _ => word,
    }
}

#[tactic(auto, unfolding(crate::specs::Meaning::rewritten_of))]
fn rewritten(word: u32, seen: WordSeen) -> u32
    ensures { result ≡ rewritten_of word seen }
{
    match seen {
        WordSeen::Free => free_word(),
        WordSeen::Anonymous => anonymous_word(),
        WordSeen::Fat => word,
        WordSeen::Flat(thread, count) => flat_word(thread, count),
        WordSeen::Reserved(thread, count) => reserved_word(thread, count),
    }
}

#[tactic(auto, unfolding(crate::specs::Meaning::cancel_read))]
fn cancel_read(word: u32, decoded: Option<LockWord>) -> u32
    ensures { result ≡ cancel_read word decoded }
{
    match decoded {
        Some(meaning) => rewritten(word, cancel_seen(seen_word(meaning))),
        None => word,
    }
}

#[tactic(auto, unfolding(crate::specs::Meaning::cancel_of))]
pub fn cancel(word: u32) -> u32
    ensures { result ≡ cancel_of word }
{
    cancel_read(word, read_word(word))
}
