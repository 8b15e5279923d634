// The records of a table, and each record with some of its fields changed. Fields lie widest first, as the compiler keeps their order; the rank stands
// where the soundness test and the events cost least. Numbers of threads and objects count from 1, with 0 for none, and are no options: this is the form
// in which the interface for C reads and writes the records (table_bytes).
ghost use Rattle.std.specs.Prelude.{◌≡◌};
ghost use Rattle.lock_table.specs.Record.{no_thread, no_monitor, no_object, no_activity, with_activity, with_phase, with_next};
ghost use Rattle.lock_table.specs.Record.{with_word, with_flag, with_monitor};

use crate::operation::Operation;
use crate::phase::Phase;
use lock_word::{Depth, Ticks};

// The most threads and objects that a table can have.
pub const THREADS: u8 = 32;

pub const OBJECTS: u8 = 64;

// The highest rank.
pub const RANKS: u8 = 3;

#[derive(Clone, Copy, PartialEq, Eq)]
pub struct ThreadRecord {
    // the reserved word read in phase 1 and about to be stored in phase 2
    pub kept: u32,
    // the depth that a wait gave up
    pub saved: Depth,
    // the ticks that a timed wait has left
    pub ticks: Ticks,
    pub object: u8,
    // 0 to 3, given with the fresh table: the entry chain is kept by falling rank
    pub rank: u8,
    pub next: u8,
    pub operation: Operation,
    pub phase: Phase,
}

// What an operation writes of a thread: what the thread is doing, and what its phase keeps. All else in the record stays from event to event. Its fields
// are a record's own, and no struct within it: clauses and definitions name `phase` and the others of a record.
#[derive(Clone, Copy)]
pub struct Activity {
    pub kept: u32,
    pub saved: Depth,
    pub ticks: Ticks,
    pub object: u8,
    pub operation: Operation,
    pub phase: Phase,
}

#[derive(Clone, Copy, PartialEq, Eq)]
pub struct Monitor {
    pub depth: Depth,
    pub holder: u8,
    // the first thread of each chain, 0 if there is none
    pub entry: u8,
    pub contention: u8,
    pub waiting: u8,
}

#[derive(Clone, Copy, PartialEq, Eq)]
pub struct ObjectRecord {
    pub word: u32,
    pub monitor: Monitor,
    // the contention flag
    pub flag: bool,
}

#[derive(Clone, Copy)]
pub struct Table {
    // how many of the records are in use: document 01's T and N, beside arrays of a fixed size, since nothing is allocated
    pub threadcount: u8,
    pub objectcount: u8,
    pub threads: [ThreadRecord; THREADS as usize],
    pub objects: [ObjectRecord; OBJECTS as usize],
}

pub fn no_thread() -> ThreadRecord
    ensures { result ≡ no_thread }
{
    ThreadRecord {
        kept: 0,
        saved: 0,
        ticks: 0,
        object: 0,
        next: 0,
        rank: 0,
        operation: Operation::Idle,
        phase: Phase::Idle,
    }
}

// Of an idle thread.
pub fn no_activity() -> Activity
    ensures { result ≡ no_activity }
{
    Activity {
        kept: 0,
        saved: 0,
        ticks: 0,
        object: 0,
        operation: Operation::Idle,
        phase: Phase::Idle,
    }
}

pub fn no_monitor() -> Monitor
    ensures { result ≡ no_monitor }
{
    Monitor {
        depth: 0,
        holder: 0,
        entry: 0,
        contention: 0,
        waiting: 0,
    }
}

pub fn no_object() -> ObjectRecord
    ensures { result ≡ no_object }
{
    ObjectRecord {
        word: 0,
        monitor: no_monitor(),
        flag: false,
    }
}

impl ThreadRecord {
    // Whatever is no part of the activity is kept.
    pub fn with_activity(self, activity: Activity) -> ThreadRecord
        ensures { result ≡ with_activity self activity }
    {
        ThreadRecord {
            kept: activity.kept,
            saved: activity.saved,
            ticks: activity.ticks,
            object: activity.object,
            operation: activity.operation,
            phase: activity.phase,
            ..self
        }
    }

    pub fn with_phase(self, phase: Phase) -> ThreadRecord
        ensures { result ≡ with_phase self phase }
    {
        ThreadRecord { phase, ..self }
    }

    pub fn with_next(mut self, next: u8) -> ThreadRecord
        ensures { result ≡ with_next self next }
    {
        self.next = next;
        self
    }
}

impl ObjectRecord {
    pub fn with_word(mut self, word: u32) -> ObjectRecord
        ensures { result ≡ with_word self word }
    {
        self.word = word;
        self
    }

    pub fn with_flag(mut self, flag: bool) -> ObjectRecord
        ensures { result ≡ with_flag self flag }
    {
        self.flag = flag;
        self
    }

    pub fn with_monitor(mut self, monitor: Monitor) -> ObjectRecord
        ensures { result ≡ with_monitor self monitor }
    {
        self.monitor = monitor;
        self
    }
}
