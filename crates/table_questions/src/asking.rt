// What can be asked of a table, by name, and how each is answered.
ghost use Rattle.std.specs.Prelude.{◌≡◌, ℕ, leb};
ghost use Rattle.laws.specs.Choice.{pick, both, within};
ghost use Rattle.lock_rules.specs.declared.event.Refusal.{Refusal};
ghost use Rattle.lock_rules.specs.declared.event.Refusal.TheVariants.{NotSound};
ghost use Rattle.lock_table.specs.Operation.{operation_number};
ghost use Rattle.lock_table.specs.Phase.{phase_number};
ghost use Rattle.lock_table.specs.declared.record.Table.{Table};
ghost use Rattle.table_bytes.specs.Reading.{is_table, table_of};
ghost use Rattle.table_questions.specs.Questions.{packed_of, said_of, holder_blocks, owner_blocks, entry_blocks, blocker_of, thread_value, object_value};
ghost use Rattle.table_questions.specs.Questions.{thread_value_in, object_value_in, ask_thread, ask_object, thread_count, object_count};
ghost use Rattle.table_questions.specs.Questions.{kind_number, named_thread};

use lock_engine::refusal_number;
use lock_rules::Refusal;
use lock_table::{
    OBJECTS, ObjectRecord, Operation, Phase, THREADS, Table, ThreadRecord, carried_number, narrow,
    object_at, operation_number, ownership_at, phase_number, thread_at,
};
use lock_word::{LockWord, Ownership, read_word};
use table_bytes::{is_table, read_table};

// Of a thread.
#[derive(Clone, Copy)]
pub enum ThreadQuestion {
    OperationOf,
    ObjectOf,
    PhaseOf,
    // the phase that a queued thread carries, 0 for any other
    OnwardOf,
    KeptOf,
    SavedOf,
    // the ticks that a timed wait has left
    TicksOf,
    NextOf,
    // given with the fresh table (document 02, L8)
    RankOf,
    BlockerOf,
}

// Of an object.
#[derive(Clone, Copy)]
pub enum ObjectQuestion {
    WordOf,
    // the kind of the word, and the thread that a flat or reserved one names
    KindOf,
    NamedOf,
    OwnerOf,
    DepthOf,
    FlagOf,
    HolderOf,
    MonitorDepthOf,
    // the first thread of each chain
    EntryOf,
    ContentionOf,
    WaitingOf,
}

const VALUE_UNIT: u64 = 256;

const HOLDER_MARK: u32 = 65536;

// The kind of a lock word, 5 where it is none. C callers have names for these numbers.
#[tactic(auto, unfolding(crate::specs::Questions::kind_number))]
fn kind_number(decoded: Option<LockWord>) -> u32
    ensures { result ≡ kind_number decoded }
{
    match decoded {
        None => 5,
        Some(LockWord::Free) => 0,
        Some(LockWord::Flat(..)) => 1,
        Some(LockWord::Anonymous) => 2,
        Some(LockWord::Reserved(..)) => 3,
        Some(LockWord::Fat(_)) => 4,
    }
}

// The thread that the word names. It need not own the object: a reserved word without a count names who may take it fast.
#[tactic(auto, unfolding(crate::specs::Questions::named_thread))]
fn named_thread(decoded: Option<LockWord>) -> u32
    ensures { result ≡ named_thread decoded }
{
    match decoded {
        Some(LockWord::Flat(thread, _) | LockWord::Reserved(thread, _)) => thread.value().into(),
        _ => 0,
    }
}

// On a sound table that no schedule reaches the holder may itself be parked for entry: it does not keep itself.
#[tactic(auto, unfolding(crate::specs::Questions::holder_blocks))]
fn holder_blocks(number: u8, holder: u8) -> u32
    ensures { result ≡ holder_blocks number holder }
{
    if holder == 0 || holder == number {
        return 0;
    }
    u32::from(holder) + HOLDER_MARK
}

// A thread that owns the object itself is kept by the holder alone.
#[tactic(auto, unfolding(crate::specs::Questions::owner_blocks))]
fn owner_blocks(number: u8, owner: u16, holder: u8) -> u32
    ensures { result ≡ owner_blocks number owner holder }
{
    if owner == 0 || owner == u16::from(number) {
        return holder_blocks(number, holder);
    }
    u32::from(owner)
}

// An exit has given the object up, and goes in to tell a contender: whoever owns the object does not keep it.
#[tactic(auto, unfolding(crate::specs::Questions::entry_blocks, lock_table::specs::Operation::operation_number))]
fn entry_blocks(operation: Operation, number: u8, owner: u16, holder: u8) -> u32
    ensures { result ≡ entry_blocks (operation_number operation) number owner holder }
{
    match operation {
        Operation::Exit => holder_blocks(number, holder),
        _ => owner_blocks(number, owner, holder),
    }
}

#[tactic(auto, unfolding(crate::specs::Questions::blocker_of, lock_table::specs::Phase::phase_number))]
fn blocker(operation: Operation, phase: Phase, number: u8, owner: u16, holder: u8) -> u32
    ensures { result ≡ blocker_of (operation_number operation) (phase_number phase) number owner holder }
{
    match phase {
        Phase::Queued(_) | Phase::Contending => entry_blocks(operation, number, owner, holder),
        _ => 0,
    }
}

#[tactic(auto, unfolding(crate::specs::Questions::thread_value))]
fn thread_value(
    question: ThreadQuestion,
    number: u8,
    thread: ThreadRecord,
    owner: u16,
    holder: u8,
) -> u32
    ensures { result ≡ thread_value question number thread owner holder }
{
    match question {
        ThreadQuestion::OperationOf => operation_number(thread.operation).into(),
        ThreadQuestion::ObjectOf => thread.object.into(),
        ThreadQuestion::PhaseOf => phase_number(thread.phase).into(),
        ThreadQuestion::OnwardOf => carried_number(thread.phase).into(),
        ThreadQuestion::KeptOf => thread.kept,
        ThreadQuestion::SavedOf => thread.saved.into(),
        ThreadQuestion::TicksOf => thread.ticks.into(),
        ThreadQuestion::NextOf => thread.next.into(),
        ThreadQuestion::RankOf => thread.rank.into(),
        ThreadQuestion::BlockerOf => {
            blocker(thread.operation, thread.phase, number, owner, holder)
        }
    }
}

#[tactic(auto, unfolding(crate::specs::Questions::object_value, table_bytes::specs::ObjectBytes::flag_byte))]
fn object_value(question: ObjectQuestion, object: ObjectRecord, ownership: Ownership) -> u32
    ensures { result ≡ object_value question object ownership }
{
    let monitor = object.monitor;
    match question {
        ObjectQuestion::WordOf => object.word,
        ObjectQuestion::KindOf => kind_number(read_word(object.word)),
        ObjectQuestion::NamedOf => named_thread(read_word(object.word)),
        ObjectQuestion::OwnerOf => ownership.thread.into(),
        ObjectQuestion::DepthOf => ownership.depth.into(),
        ObjectQuestion::FlagOf => object.flag.into(),
        ObjectQuestion::HolderOf => monitor.holder.into(),
        ObjectQuestion::MonitorDepthOf => monitor.depth.into(),
        ObjectQuestion::EntryOf => monitor.entry.into(),
        ObjectQuestion::ContentionOf => monitor.contention.into(),
        ObjectQuestion::WaitingOf => monitor.waiting.into(),
    }
}

// A question of a record that a table has by a number.
trait Question: Copy {
    ghost count: { Table → ℕ };

    ghost limit: { ℕ };

    ghost missing: { Refusal };

    ghost value: { Self → Table → ℕ → ℕ };

    // how many of the records the table says that it has, how many it has at most, and what is answered of any other
    fn count(table: &Table) -> u8
        ensures { result ≡ count table.now };

    fn limit() -> u8
        ensures { result ≡ limit };

    fn missing() -> Refusal
        ensures { result ≡ missing };

    fn value(self, table: &Table, number: u8) -> u32
        ensures { result ≡ value self table.now number };
}

impl Question for ThreadQuestion {
    ghost use Rattle.lock_table.specs.Limits.{thread_limit};
    ghost use Rattle.lock_rules.specs.declared.event.Refusal.TheVariants.{NoSuchThread};

    ghost count = { λ table. table.threadcount };

    ghost limit = { thread_limit };

    ghost missing = { NoSuchThread };

    ghost value = { thread_value_in };

    fn count(table: &Table) -> u8 {
        table.threadcount
    }

    fn limit() -> u8 {
        THREADS
    }

    fn missing() -> Refusal {
        Refusal::NoSuchThread
    }

    fn value(self, table: &Table, number: u8) -> u32 {
        let thread = thread_at(table, number);
        let owner = ownership_at(table, thread.object).thread;
        let holder = object_at(table, thread.object).monitor.holder;
        thread_value(self, number, thread, owner, holder)
    }
}

impl Question for ObjectQuestion {
    ghost use Rattle.lock_table.specs.Limits.{object_limit};
    ghost use Rattle.lock_rules.specs.declared.event.Refusal.TheVariants.{NoSuchObject};

    ghost count = { λ table. table.objectcount };

    ghost limit = { object_limit };

    ghost missing = { NoSuchObject };

    ghost value = { object_value_in };

    fn count(table: &Table) -> u8 {
        table.objectcount
    }

    fn limit() -> u8 {
        OBJECTS
    }

    fn missing() -> Refusal {
        Refusal::NoSuchObject
    }

    fn value(self, table: &Table, number: u8) -> u32 {
        object_value(self, object_at(table, number), ownership_at(table, number))
    }
}

// One of the table's records, and of those that there are, whatever a size that is not sound says. A `Result` of the table, from a function
// of its own, would be one table more on the stack.
fn value_in<Q: Question>(question: Q, bytes: &[u8], number: u8) -> Result<u32, Refusal>
    ensures { result ≡ pick (is_table bytes.now) (pick (both (within 1 (Q.count (table_of bytes.now)) number) (leb number Q.limit)) (Ok (Q.value question (table_of bytes.now) number)) (Err Q.missing)) (Err NotSound) }
{
    if !is_table(bytes) {
        return Err(Refusal::NotSound);
    }
    let table = read_table(bytes);
    if 1 <= number && number <= Q::count(&table) && number <= Q::limit() {
        return Ok(question.value(&table, number));
    }
    Err(Q::missing())
}

// An answer: the returned number in bits 0 to 7, 0 where there is a value, and the value above. An event's answer is packed otherwise (event_bytes).
fn packed(answer: Result<u32, Refusal>) -> u64
    ensures { result ≡ packed_of answer }
{
    match answer {
        Ok(value) => u64::from(value) * VALUE_UNIT,
        Err(refusal) => refusal_number(refusal).into(),
    }
}

#[tactic(auto, using(crate::proofs::Said::said_packed))]
fn ask<Q: Question>(question: Q, bytes: &[u8], number: u8) -> u64
    ensures { result ≡ said_of (is_table bytes.now) (both (within 1 (Q.count (table_of bytes.now)) number) (leb number Q.limit)) Q.missing (Q.value question (table_of bytes.now) number) }
{
    packed(value_in(question, bytes, number))
}

// The answer of the table that the bytes say; 11 where they are none, 12 for no thread of it.
pub fn ask_thread(question: ThreadQuestion, bytes: &[u8], thread: u32) -> u64
    ensures { result ≡ ask_thread question bytes.now thread }
{
    ask(question, bytes, narrow(thread))
}

// The same of an object, with 13.
pub fn ask_object(question: ObjectQuestion, bytes: &[u8], object: u32) -> u64
    ensures { result ≡ ask_object question bytes.now object }
{
    ask(question, bytes, narrow(object))
}

// How many of the records the table has.
fn count_in<Q: Question>(bytes: &[u8]) -> Result<u32, Refusal>
    ensures { result ≡ pick (is_table bytes.now) (Ok (Q.count (table_of bytes.now))) (Err NotSound) }
{
    if !is_table(bytes) {
        return Err(Refusal::NotSound);
    }
    Ok(Q::count(&read_table(bytes)).into())
}

// How many threads the table has.
#[tactic(auto, using(crate::proofs::Said::count_packed))]
pub fn thread_count(bytes: &[u8]) -> u64
    ensures { result ≡ thread_count bytes.now }
{
    packed(count_in::<ThreadQuestion>(bytes))
}

// How many objects the table has.
#[tactic(auto, using(crate::proofs::Said::count_packed))]
pub fn object_count(bytes: &[u8]) -> u64
    ensures { result ≡ object_count bytes.now }
{
    packed(count_in::<ObjectQuestion>(bytes))
}
