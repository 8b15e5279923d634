// What is done to a monitor: going in, handing it on, joining and moving chains. Each method takes the monitor and gives it back altered.
// A chain's other threads are reached through the table (chain.rt); a method is told the next index that it needs.
ghost use Rattle.std.specs.Prelude.{◌≡◌};
ghost use Rattle.lock_table.specs.Monitor.{held_by, with_depth, hand_of, first_in, with_first, join, move_to_entry, let_out_of};

use crate::record::Monitor;
use chains::Chain;
use lock_word::Depth;

// A monitor, and the thread that was handed it; 0 for nobody, as in the monitor itself.
#[derive(Clone, Copy)]
pub struct Handed {
    pub monitor: Monitor,
    pub thread: u8,
}

// A monitor, and the set of the threads that were let out of its entry chain: bit n - 1 for thread n.
#[derive(Clone, Copy)]
pub struct LetOut {
    pub monitor: Monitor,
    pub threads: u32,
}

impl Monitor {
    pub fn held_by(mut self, thread: u8) -> Monitor
        ensures { result ≡ held_by self thread }
    {
        self.holder = thread;
        self
    }

    pub fn with_depth(mut self, depth: Depth) -> Monitor
        ensures { result ≡ with_depth self depth }
    {
        self.depth = depth;
        self
    }

    // Hand: the first of the entry chain becomes holder at depth 0. `next` is its next index, 0 if there is nobody.
    pub fn hand(mut self, next: u8) -> Handed
        ensures { result ≡ hand_of self next }
    {
        let first = self.entry;
        self.holder = first;
        self.depth = 0;
        self.entry = next;
        Handed {
            monitor: self,
            thread: first,
        }
    }

    // The first thread of a chain, 0 if there is none.
    pub fn first_in(self, chain: Chain) -> u8
        ensures { result ≡ first_in self chain }
    {
        match chain {
            Chain::Entry => self.entry,
            Chain::Contention => self.contention,
            Chain::Waiting => self.waiting,
        }
    }

    // Another first thread for a chain.
    pub fn with_first(mut self, chain: Chain, first: u8) -> Monitor
        ensures { result ≡ with_first self chain first }
    {
        match chain {
            Chain::Entry => self.entry = first,
            Chain::Contention => self.contention = first,
            Chain::Waiting => self.waiting = first,
        }
        self
    }

    // Threads have joined a chain: it begins with `first` then.
    pub fn join(mut self, chain: Chain, first: u8) -> Monitor
        ensures { result ≡ join self chain first }
    {
        self = self.with_first(chain, first);
        self
    }

    // Threads of a chain have moved to the entry chain: that chain begins with `left` then, and the entry chain with `first`.
    pub fn move_to_entry(mut self, from: Chain, left: u8, first: u8) -> Monitor
        ensures { result ≡ move_to_entry self from left first }
    {
        self = self.with_first(from, left);
        self.join(Chain::Entry, first)
    }

    // Threads are let out of the entry chain, which begins with `left` then; `out` is the set of them.
    pub fn let_out(mut self, left: u8, out: u32) -> LetOut
        ensures { result ≡ let_out_of self left out }
    {
        self.entry = left;
        LetOut {
            monitor: self,
            threads: out,
        }
    }
}
