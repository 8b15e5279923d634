// Fresh tables: every thread idle with what it is given, every word free or anonymously reserved as asked, all else zero.
ghost use Rattle.std.specs.Prelude.{◌≡◌, ◌≤◌, ℕ};
ghost use Rattle.laws.specs.Sequence.{tabulate};
ghost use Rattle.lock_table.specs.Limits.{thread_limit, object_limit};
ghost use Rattle.lock_table.specs.Fresh.{no_thread_given, sized_request, first_word, thread_given, object_given, thread_from, object_from};
ghost use Rattle.lock_table.specs.Record.{no_thread, no_object};
ghost use Rattle.lock_table.specs.declared.fresh_table.FreshRequest.{FreshRequest};
ghost use Rattle.lock_table.specs.Fresh.{table_of, no_table, in_range, ranks_fit, fresh_answer, fresh_of, refusal_returned, fresh_returned};

use crate::record::{
    OBJECTS, ObjectRecord, RANKS, THREADS, Table, ThreadRecord, no_object, no_thread,
};

// What a thread of a fresh table is given, beside its number. It stays in every phase.
#[derive(Clone, Copy)]
pub struct ThreadGiven {
    pub rank: u8,
}

// What an object is given.
#[derive(Clone, Copy)]
pub struct ObjectGiven {
    // an anonymously reserved word, else a free one
    pub reserved: bool,
}

// What a fresh table is asked to be.
#[derive(Clone, Copy)]
pub struct FreshRequest {
    pub threads: u16,
    pub objects: u16,
    // every word anonymously reserved, else free
    pub reserved: bool,
    // what the threads are given, in order; what stands past T is not looked at
    pub tothreads: [ThreadGiven; THREADS as usize],
}

#[derive(Clone, Copy)]
pub enum FreshRefusal {
    SizeOutOfRange, // 22
    RankOutOfRange, // 27
}

// Nothing: every field is 0.
pub fn no_thread_given() -> ThreadGiven
    ensures { result ≡ no_thread_given }
{
    ThreadGiven { rank: 0 }
}

// A request of sizes and of the kind of words: no thread is given anything.
pub fn sized_request(threads: u16, objects: u16, reserved: bool) -> FreshRequest
    ensures { result ≡ sized_request threads objects reserved }
{
    FreshRequest {
        threads,
        objects,
        reserved,
        tothreads: [no_thread_given(); THREADS as usize],
    }
}

#[tactic(auto, unfolding(crate::specs::Fresh::first_word))]
fn first_word(reserved: bool) -> u32
    ensures { result ≡ first_word reserved }
{
    if reserved {
        return lock_word::anonymous_word();
    }
    lock_word::free_word()
}

// What the thread at a place is given, which counts from 0: nothing is read past T.
#[tactic(auto, unfolding(crate::specs::Fresh::thread_given))]
fn thread_given(request: FreshRequest, place: usize) -> ThreadGiven
    ensures { result ≡ thread_given request place }
{
    if place < usize::from(request.threads) && place < THREADS.into() {
        return request.tothreads[place];
    }
    no_thread_given()
}

// The same of the object at a place. All are given the same word, so it is read from no list as a thread's rank is, and shares nothing with it but a test.
#[tactic(auto, unfolding(crate::specs::Fresh::object_given))]
fn object_given(request: FreshRequest, place: usize) -> ObjectGiven
    ensures { result ≡ object_given request place }
{
    ObjectGiven {
        reserved: place < usize::from(request.objects)
            && place < OBJECTS.into()
            && request.reserved,
    }
}

// A record of a fresh table: what a request makes of the one at a place, which counts from 0.
trait FreshRecord: Copy {
    ghost empty: { Self };

    ghost made: { FreshRequest → ℕ → Self };

    fn empty() -> Self
        ensures { result ≡ empty };

    fn made(request: FreshRequest, place: usize) -> Self
        ensures { result ≡ made request place };
}

// An idle thread with what it is given: the empty record where that is nothing.
impl FreshRecord for ThreadRecord {
    ghost empty = { no_thread };

    ghost made = { thread_from };

    fn empty() -> ThreadRecord {
        no_thread()
    }

    fn made(request: FreshRequest, place: usize) -> ThreadRecord {
        ThreadRecord {
            rank: thread_given(request, place).rank,
            ..no_thread()
        }
    }
}

// An object with what it is given, which nobody owns.
impl FreshRecord for ObjectRecord {
    ghost empty = { no_object };

    ghost made = { object_from };

    fn empty() -> ObjectRecord {
        no_object()
    }

    fn made(request: FreshRequest, place: usize) -> ObjectRecord {
        no_object().with_word(first_word(object_given(request, place).reserved))
    }
}

fn fresh_records<T: FreshRecord, const N: usize>(request: FreshRequest) -> [T; N]
    ensures { result ≡ tabulate N (T.made request) }
{
    let mut records = [T::empty(); N];
    for (place, record) in records.iter_mut().enumerate() {
        *record = T::made(request, place);
    }
    records
}

fn table_of(request: FreshRequest) -> Table
    requires { (request.threads ≤ thread_limit) × (request.objects ≤ object_limit) }
    ensures { result ≡ table_of request }
{
    Table {
        threadcount: request.threads as u8,
        objectcount: request.objects as u8,
        threads: fresh_records(request),
        objects: fresh_records(request),
    }
}

#[tactic(auto, unfolding(crate::specs::Fresh::in_range))]
fn in_range(request: FreshRequest) -> bool
    ensures { result ≡ in_range request }
{
    (1..=u16::from(THREADS)).contains(&request.threads)
        && (1..=u16::from(OBJECTS)).contains(&request.objects)
}

// Whether every rank that is given is 0 to 3.
fn ranks_fit(request: FreshRequest) -> bool
    ensures { result ≡ ranks_fit request }
{
    // `as` and no `into`, with which it stayed open that the loop begins at 32
    for place in (0..THREADS as usize).rev() {
        let given = thread_given(request, place);
        if RANKS < given.rank {
            return false;
        }
    }
    true
}

// Which refusal comes first, if any.
#[tactic(auto, unfolding(crate::specs::Fresh::fresh_answer))]
fn fresh_answer(request: FreshRequest) -> Result<(), FreshRefusal>
    ensures { result ≡ fresh_answer request }
{
    if !in_range(request) {
        return Err(FreshRefusal::SizeOutOfRange);
    }
    if !ranks_fit(request) {
        return Err(FreshRefusal::RankOutOfRange);
    }
    Ok(())
}

// The table of no threads and no objects, all zero, for callers that hold one before a table is made.
pub fn no_table() -> Table
    ensures { result ≡ no_table }
{
    table_of(sized_request(0, 0, false))
}

// A fresh table as asked, or the first refusal.
#[tactic(auto, using(crate::proofs::FreshTables::answered_fits), unfolding(crate::specs::Fresh::fresh_of, crate::specs::Fresh::made_by))]
pub fn fresh(request: FreshRequest) -> Result<Table, FreshRefusal>
    ensures { result ≡ fresh_of request }
{
    fresh_answer(request)?;
    Ok(table_of(request))
}

impl From<FreshRefusal> for u8 {
    ghost from_gives = { λ refusal number. number ≡ refusal_returned refusal };

    #[tactic(auto, unfolding(crate::specs::Fresh::refusal_returned))]
    fn from(refusal: FreshRefusal) -> u8 {
        match refusal {
            FreshRefusal::SizeOutOfRange => 22,
            FreshRefusal::RankOutOfRange => 27,
        }
    }
}

// The number returned.
#[tactic(auto, unfolding(crate::specs::Fresh::fresh_returned))]
pub fn fresh_returned(answer: Result<(), FreshRefusal>) -> u8
    ensures { result ≡ fresh_returned answer }
{
    match answer {
        Ok(()) => 0,
        Err(refusal) => u8::from(refusal),
    }
}
