// The dispatcher's types (document 02, L6): a thread's script, what runs, and what a run answers. Definitions, claims and proofs about them, and no code.
#![tactic(auto)]

use lock_table::{THREADS, Table};

// Where the script of a thread is in the operations that are lent, and how far it has come. So it lies in memory, for callers in C.
#[repr(C)]
#[derive(Clone, Copy)]
pub struct ScriptCursor {
    // its first operation; they count from 0
    pub start: u32,
    // how many operations it has
    pub length: u32,
    // how many of them were begun
    pub cursor: u32,
}

// Why a run is refused.
#[derive(Clone, Copy)]
pub enum DispatchRefusal {
    NotSound, // 11
    QuantumOutOfRange, // 25
    ScriptUnknown, // 26
}

// What a run gives back: the table that it came to, whether it ran, and how many steps it took.
#[derive(Clone, Copy)]
pub struct Dispatched {
    pub table: Table,
    pub answer: Result<(), DispatchRefusal>,
    pub steps: u64,
}

// And the cursors that it came to, for those who lent them.
#[derive(Clone, Copy)]
pub struct ScriptRun {
    pub cursors: [ScriptCursor; THREADS as usize],
    pub dispatched: Dispatched,
}
