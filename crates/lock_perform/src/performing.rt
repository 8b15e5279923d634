// What an effect does to the two records that it is about, and what is written of them once its work on the chains is done.
ghost use Rattle.std.specs.Prelude.{◌≡◌};
ghost use Rattle.lock_perform.specs.Perform.{word_after, begun_monitor, object_after, stays};
ghost use Rattle.lock_perform.specs.InPlace.{own_written, if_object, object_written};

use crate::moving::{if_numbered, if_record};
use lock_rules::{ChainWork, Effect, WordChange};
use lock_table::{Monitor, OBJECTS, ObjectRecord, ThreadRecord};
use lock_word::Depth;

#[tactic(auto, unfolding(crate::specs::Perform::word_after))]
fn word_after(thread: u8, object: u8, word: u32, change: WordChange) -> u32
    ensures { result ≡ word_after thread object word change }
{
    match change {
        WordChange::Unchanged => word,
        WordChange::Freed => lock_word::free_word(),
        WordChange::OwnFlat(count) => lock_word::flat_word(u16::from(thread), count),
        WordChange::OwnReserved(count) => lock_word::reserved_word(u16::from(thread), count),
        WordChange::Cancelled => lock_word::cancel(word),
        WordChange::Inflated => lock_word::fat_word(u16::from(object)),
    }
}

// Holder and depth by the effect, before its work on chains.
fn begun_monitor(monitor: Monitor, holder: u8, depth: Depth) -> Monitor
    ensures { result ≡ begun_monitor monitor holder depth }
{
    monitor.held_by(holder).with_depth(depth)
}

// The object's record after an effect, its chains as they were.
pub fn object_after(thread: u8, number: u8, object: ObjectRecord, effect: Effect) -> ObjectRecord
    ensures { result ≡ object_after thread number object effect }
{
    let monitor = begun_monitor(object.monitor, effect.holder, effect.depth);
    object
        .with_word(word_after(thread, number, object.word, effect.word))
        .with_monitor(monitor)
        .with_flag(effect.flag)
}

// Whether an effect leaves the chains alone.
#[tactic(auto, unfolding(crate::specs::Perform::stays))]
pub fn stays(work: ChainWork) -> bool
    ensures { result ≡ stays work }
{
    matches!(work, ChainWork::Stay)
}

// What is written of the thread at its place: its record with the next index that the work on the chains gave it.
pub fn own_written(thread: u8, own: ThreadRecord, there: ThreadRecord) -> ThreadRecord
    ensures { result ≡ own_written thread own there }
{
    if_record(thread, own.with_next(there.next), there)
}

// The record of a number that has one, else the other.
#[tactic(auto, unfolding(crate::specs::InPlace::if_object))]
fn if_object(number: u8, there: ObjectRecord, other: ObjectRecord) -> ObjectRecord
    ensures { result ≡ if_object number there other }
{
    if_numbered(OBJECTS, number, there, other)
}

// What is written of the object at its place: its record with the chains that the work gave.
pub fn object_written(
    number: u8,
    object: ObjectRecord,
    monitor: Monitor,
    there: ObjectRecord,
) -> ObjectRecord
    ensures { result ≡ object_written number object monitor there }
{
    if_object(number, object.with_monitor(monitor), there)
}
