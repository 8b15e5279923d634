// The questions.
ghost use Rattle.std.specs.Prelude.{◌≡◌};
ghost use Rattle.table_questions.specs.Questions.{thread_count, object_count, ask_thread, ask_object};
ghost use Rattle.table_bytes.specs.Layout.{layout_version};
ghost use Rattle.lock_engine_c.specs.Calls.{version};
ghost use Rattle.table_questions.specs.declared.asking.ThreadQuestion.TheVariants.{OperationOf, ObjectOf, PhaseOf, OnwardOf, KeptOf, SavedOf, TicksOf, NextOf, RankOf, BlockerOf};
ghost use Rattle.table_questions.specs.declared.asking.ObjectQuestion.TheVariants.{WordOf, OwnerOf, DepthOf, FlagOf, HolderOf, MonitorDepthOf};
ghost use Rattle.table_questions.specs.declared.asking.ObjectQuestion.TheVariants.{EntryOf, ContentionOf, WaitingOf, KindOf, NamedOf};

// The library's version: major, minor and patch number in a byte each, the patch number lowest.
#[unsafe(no_mangle)]
pub extern "C" fn duskclamp_version() -> u32
    ensures { result ≡ version }
{
    lock_engine_c::duskclamp_version()
}

// The version of the bytes of a table, which rises whenever they change.
#[unsafe(no_mangle)]
pub extern "C" fn duskclamp_layout_version() -> u32
    ensures { result ≡ layout_version }
{
    lock_engine_c::duskclamp_layout_version()
}

// How many threads the table has.
#[unsafe(no_mangle)]
pub extern "C" fn duskclamp_thread_count(bytes: &[u8]) -> u64
    ensures { result ≡ thread_count bytes.now }
{
    lock_engine_c::duskclamp_thread_count(bytes)
}

// How many objects the table has.
#[unsafe(no_mangle)]
pub extern "C" fn duskclamp_object_count(bytes: &[u8]) -> u64
    ensures { result ≡ object_count bytes.now }
{
    lock_engine_c::duskclamp_object_count(bytes)
}

// The thread's operation, 0 for idle.
#[unsafe(no_mangle)]
pub extern "C" fn duskclamp_operation(bytes: &[u8], thread: u32) -> u64
    ensures { result ≡ ask_thread OperationOf bytes.now thread }
{
    lock_engine_c::duskclamp_operation(bytes, thread)
}

// The object that the thread is at, 0 for idle.
#[unsafe(no_mangle)]
pub extern "C" fn duskclamp_object(bytes: &[u8], thread: u32) -> u64
    ensures { result ≡ ask_thread ObjectOf bytes.now thread }
{
    lock_engine_c::duskclamp_object(bytes, thread)
}

// The thread's phase.
#[unsafe(no_mangle)]
pub extern "C" fn duskclamp_phase(bytes: &[u8], thread: u32) -> u64
    ensures { result ≡ ask_thread PhaseOf bytes.now thread }
{
    lock_engine_c::duskclamp_phase(bytes, thread)
}

// The phase that a queued thread goes on with, 0 for any other.
#[unsafe(no_mangle)]
pub extern "C" fn duskclamp_onward(bytes: &[u8], thread: u32) -> u64
    ensures { result ≡ ask_thread OnwardOf bytes.now thread }
{
    lock_engine_c::duskclamp_onward(bytes, thread)
}

// The word that a thread in phase 2 is about to store with its count changed, 0 for any other.
#[unsafe(no_mangle)]
pub extern "C" fn duskclamp_kept(bytes: &[u8], thread: u32) -> u64
    ensures { result ≡ ask_thread KeptOf bytes.now thread }
{
    lock_engine_c::duskclamp_kept(bytes, thread)
}

// The depth that a wait gave up, 0 for any other.
#[unsafe(no_mangle)]
pub extern "C" fn duskclamp_saved_depth(bytes: &[u8], thread: u32) -> u64
    ensures { result ≡ ask_thread SavedOf bytes.now thread }
{
    lock_engine_c::duskclamp_saved_depth(bytes, thread)
}

// The ticks that a timed wait has left, 0 for one that ran out and for any other operation.
#[unsafe(no_mangle)]
pub extern "C" fn duskclamp_ticks(bytes: &[u8], thread: u32) -> u64
    ensures { result ≡ ask_thread TicksOf bytes.now thread }
{
    lock_engine_c::duskclamp_ticks(bytes, thread)
}

// The thread behind this one in its chain, 0 for none.
#[unsafe(no_mangle)]
pub extern "C" fn duskclamp_next(bytes: &[u8], thread: u32) -> u64
    ensures { result ≡ ask_thread NextOf bytes.now thread }
{
    lock_engine_c::duskclamp_next(bytes, thread)
}

// The thread's rank.
#[unsafe(no_mangle)]
pub extern "C" fn duskclamp_rank(bytes: &[u8], thread: u32) -> u64
    ensures { result ≡ ask_thread RankOf bytes.now thread }
{
    lock_engine_c::duskclamp_rank(bytes, thread)
}

// Who keeps the thread parked for entry.
#[unsafe(no_mangle)]
pub extern "C" fn duskclamp_blocker(bytes: &[u8], thread: u32) -> u64
    ensures { result ≡ ask_thread BlockerOf bytes.now thread }
{
    lock_engine_c::duskclamp_blocker(bytes, thread)
}

// The object's lock word.
#[unsafe(no_mangle)]
pub extern "C" fn duskclamp_word(bytes: &[u8], object: u32) -> u64
    ensures { result ≡ ask_object WordOf bytes.now object }
{
    lock_engine_c::duskclamp_word(bytes, object)
}

// The kind of the object's lock word.
#[unsafe(no_mangle)]
pub extern "C" fn duskclamp_word_kind(bytes: &[u8], object: u32) -> u64
    ensures { result ≡ ask_object KindOf bytes.now object }
{
    lock_engine_c::duskclamp_word_kind(bytes, object)
}

// The thread that a flat or reserved word names, 0 for any other word.
#[unsafe(no_mangle)]
pub extern "C" fn duskclamp_word_thread(bytes: &[u8], object: u32) -> u64
    ensures { result ≡ ask_object NamedOf bytes.now object }
{
    lock_engine_c::duskclamp_word_thread(bytes, object)
}

// The thread that owns the object, 0 for nobody.
#[unsafe(no_mangle)]
pub extern "C" fn duskclamp_owner(bytes: &[u8], object: u32) -> u64
    ensures { result ≡ ask_object OwnerOf bytes.now object }
{
    lock_engine_c::duskclamp_owner(bytes, object)
}

// How deep the object is owned, 0 if nobody does.
#[unsafe(no_mangle)]
pub extern "C" fn duskclamp_depth(bytes: &[u8], object: u32) -> u64
    ensures { result ≡ ask_object DepthOf bytes.now object }
{
    lock_engine_c::duskclamp_depth(bytes, object)
}

// The object's contention flag.
#[unsafe(no_mangle)]
pub extern "C" fn duskclamp_flag(bytes: &[u8], object: u32) -> u64
    ensures { result ≡ ask_object FlagOf bytes.now object }
{
    lock_engine_c::duskclamp_flag(bytes, object)
}

// The holder of the object's monitor, 0 for nobody.
#[unsafe(no_mangle)]
pub extern "C" fn duskclamp_holder(bytes: &[u8], object: u32) -> u64
    ensures { result ≡ ask_object HolderOf bytes.now object }
{
    lock_engine_c::duskclamp_holder(bytes, object)
}

// The monitor's depth. It is the object's only where the word is fat.
#[unsafe(no_mangle)]
pub extern "C" fn duskclamp_monitor_depth(bytes: &[u8], object: u32) -> u64
    ensures { result ≡ ask_object MonitorDepthOf bytes.now object }
{
    lock_engine_c::duskclamp_monitor_depth(bytes, object)
}

// The first thread of the entry chain, 0 for none.
#[unsafe(no_mangle)]
pub extern "C" fn duskclamp_entry_first(bytes: &[u8], object: u32) -> u64
    ensures { result ≡ ask_object EntryOf bytes.now object }
{
    lock_engine_c::duskclamp_entry_first(bytes, object)
}

// The first thread of the contention chain, 0 for none.
#[unsafe(no_mangle)]
pub extern "C" fn duskclamp_contention_first(bytes: &[u8], object: u32) -> u64
    ensures { result ≡ ask_object ContentionOf bytes.now object }
{
    lock_engine_c::duskclamp_contention_first(bytes, object)
}

// The first thread of the waiting chain, 0 for none.
#[unsafe(no_mangle)]
pub extern "C" fn duskclamp_waiting_first(bytes: &[u8], object: u32) -> u64
    ensures { result ≡ ask_object WaitingOf bytes.now object }
{
    lock_engine_c::duskclamp_waiting_first(bytes, object)
}
