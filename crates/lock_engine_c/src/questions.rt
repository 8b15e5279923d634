// The questions that are exported, one function for each name that C has. They change nothing, and are answered of a table that is not sound too, by what
// its records say.
ghost use Rattle.std.specs.Prelude.{◌≡◌};
ghost use Rattle.table_questions.specs.Questions.{thread_count, object_count, ask_thread, ask_object};
ghost use Rattle.table_bytes.specs.Layout.{layout_version};
ghost use Rattle.lock_engine_c.specs.Calls.{version};
ghost use Rattle.table_questions.specs.declared.asking.ThreadQuestion.TheVariants.{OperationOf, ObjectOf, PhaseOf, OnwardOf, KeptOf, SavedOf, TicksOf, NextOf, RankOf, BlockerOf};
ghost use Rattle.table_questions.specs.declared.asking.ObjectQuestion.TheVariants.{WordOf, OwnerOf, DepthOf, FlagOf, HolderOf, MonitorDepthOf};
ghost use Rattle.table_questions.specs.declared.asking.ObjectQuestion.TheVariants.{EntryOf, ContentionOf, WaitingOf, KindOf, NamedOf};

use table_bytes::LAYOUT_VERSION;
use table_questions::{
    ObjectQuestion, ThreadQuestion, ask_object, ask_thread, object_count, thread_count,
};

const VERSION: u32 = 1280;

// The library's version: major, minor and patch number in a byte each, the patch number lowest.
pub fn duskclamp_version() -> u32
    ensures { result ≡ version }
{
    VERSION
}

// The version of the bytes of a table, which rises whenever they change.
pub fn duskclamp_layout_version() -> u32
    ensures { result ≡ layout_version }
{
    LAYOUT_VERSION
}

// How many threads the table has.
pub fn duskclamp_thread_count(bytes: &[u8]) -> u64
    ensures { result ≡ thread_count bytes.now }
{
    thread_count(bytes)
}

// How many objects the table has.
pub fn duskclamp_object_count(bytes: &[u8]) -> u64
    ensures { result ≡ object_count bytes.now }
{
    object_count(bytes)
}

// The thread's operation, 0 for idle.
pub fn duskclamp_operation(bytes: &[u8], thread: u32) -> u64
    ensures { result ≡ ask_thread OperationOf bytes.now thread }
{
    ask_thread(ThreadQuestion::OperationOf, bytes, thread)
}

// The object that the thread is at, 0 for idle.
pub fn duskclamp_object(bytes: &[u8], thread: u32) -> u64
    ensures { result ≡ ask_thread ObjectOf bytes.now thread }
{
    ask_thread(ThreadQuestion::ObjectOf, bytes, thread)
}

// The thread's phase.
pub fn duskclamp_phase(bytes: &[u8], thread: u32) -> u64
    ensures { result ≡ ask_thread PhaseOf bytes.now thread }
{
    ask_thread(ThreadQuestion::PhaseOf, bytes, thread)
}

// The phase that a queued thread goes on with, 0 for any other.
pub fn duskclamp_onward(bytes: &[u8], thread: u32) -> u64
    ensures { result ≡ ask_thread OnwardOf bytes.now thread }
{
    ask_thread(ThreadQuestion::OnwardOf, bytes, thread)
}

// The word that a thread in phase 2 is about to store with its count changed, 0 for any other.
pub fn duskclamp_kept(bytes: &[u8], thread: u32) -> u64
    ensures { result ≡ ask_thread KeptOf bytes.now thread }
{
    ask_thread(ThreadQuestion::KeptOf, bytes, thread)
}

// The depth that a wait gave up, 0 for any other.
pub fn duskclamp_saved_depth(bytes: &[u8], thread: u32) -> u64
    ensures { result ≡ ask_thread SavedOf bytes.now thread }
{
    ask_thread(ThreadQuestion::SavedOf, bytes, thread)
}

// The ticks that a timed wait has left, 0 for one that ran out and for any other operation.
pub fn duskclamp_ticks(bytes: &[u8], thread: u32) -> u64
    ensures { result ≡ ask_thread TicksOf bytes.now thread }
{
    ask_thread(ThreadQuestion::TicksOf, bytes, thread)
}

// The thread behind this one in its chain, 0 for none.
pub fn duskclamp_next(bytes: &[u8], thread: u32) -> u64
    ensures { result ≡ ask_thread NextOf bytes.now thread }
{
    ask_thread(ThreadQuestion::NextOf, bytes, thread)
}

// The thread's rank.
pub fn duskclamp_rank(bytes: &[u8], thread: u32) -> u64
    ensures { result ≡ ask_thread RankOf bytes.now thread }
{
    ask_thread(ThreadQuestion::RankOf, bytes, thread)
}

// Who keeps the thread parked for entry.
pub fn duskclamp_blocker(bytes: &[u8], thread: u32) -> u64
    ensures { result ≡ ask_thread BlockerOf bytes.now thread }
{
    ask_thread(ThreadQuestion::BlockerOf, bytes, thread)
}

// The object's lock word.
pub fn duskclamp_word(bytes: &[u8], object: u32) -> u64
    ensures { result ≡ ask_object WordOf bytes.now object }
{
    ask_object(ObjectQuestion::WordOf, bytes, object)
}

// The kind of the object's lock word.
pub fn duskclamp_word_kind(bytes: &[u8], object: u32) -> u64
    ensures { result ≡ ask_object KindOf bytes.now object }
{
    ask_object(ObjectQuestion::KindOf, bytes, object)
}

// The thread that a flat or reserved word names, 0 for any other word.
pub fn duskclamp_word_thread(bytes: &[u8], object: u32) -> u64
    ensures { result ≡ ask_object NamedOf bytes.now object }
{
    ask_object(ObjectQuestion::NamedOf, bytes, object)
}

// The thread that owns the object, 0 for nobody.
pub fn duskclamp_owner(bytes: &[u8], object: u32) -> u64
    ensures { result ≡ ask_object OwnerOf bytes.now object }
{
    ask_object(ObjectQuestion::OwnerOf, bytes, object)
}

// How deep the object is owned, 0 if nobody does.
pub fn duskclamp_depth(bytes: &[u8], object: u32) -> u64
    ensures { result ≡ ask_object DepthOf bytes.now object }
{
    ask_object(ObjectQuestion::DepthOf, bytes, object)
}

// The object's contention flag.
pub fn duskclamp_flag(bytes: &[u8], object: u32) -> u64
    ensures { result ≡ ask_object FlagOf bytes.now object }
{
    ask_object(ObjectQuestion::FlagOf, bytes, object)
}

// The holder of the object's monitor, 0 for nobody.
pub fn duskclamp_holder(bytes: &[u8], object: u32) -> u64
    ensures { result ≡ ask_object HolderOf bytes.now object }
{
    ask_object(ObjectQuestion::HolderOf, bytes, object)
}

// The monitor's depth. It is the object's only where the word is fat.
pub fn duskclamp_monitor_depth(bytes: &[u8], object: u32) -> u64
    ensures { result ≡ ask_object MonitorDepthOf bytes.now object }
{
    ask_object(ObjectQuestion::MonitorDepthOf, bytes, object)
}

// The first thread of the entry chain, 0 for none.
pub fn duskclamp_entry_first(bytes: &[u8], object: u32) -> u64
    ensures { result ≡ ask_object EntryOf bytes.now object }
{
    ask_object(ObjectQuestion::EntryOf, bytes, object)
}

// The first thread of the contention chain, 0 for none.
pub fn duskclamp_contention_first(bytes: &[u8], object: u32) -> u64
    ensures { result ≡ ask_object ContentionOf bytes.now object }
{
    ask_object(ObjectQuestion::ContentionOf, bytes, object)
}

// The first thread of the waiting chain, 0 for none.
pub fn duskclamp_waiting_first(bytes: &[u8], object: u32) -> u64
    ensures { result ≡ ask_object WaitingOf bytes.now object }
{
    ask_object(ObjectQuestion::WaitingOf, bytes, object)
}
