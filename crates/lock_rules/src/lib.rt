// What a thread is doing, what it sees of its object, and what a step decides: document 01, "The table" and "Steps".
// Nothing here knows of tables or of the links of a chain.
#![tactic(auto)]

mod event;
mod numbers;

use chains::Chain;
pub use event::{Event, Refusal, ThreadStatus};
use lock_word::{Depth, WordSeen};

// How long a wait goes on: until it is notified, or for so many ticks of the clock at most. No Option of ticks: `WaitLook(None)` would not tell a reader
// that the wait has no limit, as `WaitLook(Limit::Unlimited)` does.
#[derive(Clone, Copy)]
pub enum Limit {
    Unlimited,
    Ticks(lock_word::Ticks), // ticks left
}

// What a wait keeps from giving the monitor up until it resumes.
#[derive(Clone, Copy)]
pub struct Suspension {
    pub depth: Depth, // saved depth
    pub limit: Limit, // what is left of it
}

// What a queued thread goes on with when the monitor is handed to it.
#[derive(Clone, Copy)]
pub enum OnwardStep {
    ToCheck, // 6, an enter
    ToTell, // 10, an exit
    ToInflate(Limit), // 12, a wait
    ToResume(Suspension), // 15, a woken wait
}

// Operation and phase of a thread that can take a step. A store holds the count of its kept word, a wait its limit.
#[derive(Clone, Copy)]
pub enum Doing {
    EnterLook, // enter, 1 look
    EnterStore(u8), // enter, 2 store
    EnterCancel, // enter, 3 cancel
    EnterGoIn, // enter, 4 go in
    EnterCheck, // enter, 6 check
    EnterTry, // enter, 7 try
    ExitLook, // exit, 1 look
    ExitStore(u8), // exit, 2 store
    ExitGoIn, // exit, 4 go in
    ExitTest, // exit, 9 test
    ExitTell, // exit, 10 tell
    ExitLeave, // exit, 11 leave
    WaitLook(Limit), // wait, 1 look
    WaitCancel(Limit), // wait, 3 cancel
    WaitGoIn(Limit), // wait, 4 go in
    WaitInflate(Limit), // wait, 12 inflate
    WaitGiveUp(Limit), // wait, 13 wait
    WaitResume(Suspension), // wait, 15 resume
    NotifyLook, // notify, 1 look
    NotifyAllLook, // notify all, 1 look
}

// A thread: idle, able to take a step, or parked in one of the three chains of its object.
#[derive(Clone, Copy)]
pub enum ThreadState {
    Idle, // 0
    Running(Doing), // every other phase
    Queued(OnwardStep), // 5, in the entry chain
    Contending, // 8, in the contention chain
    Waiting(Suspension), // 14, in the waiting chain
}

// What a rule does to the word. A rule puts no thread but its own into a word.
#[derive(Clone, Copy)]
pub enum WordChange {
    Unchanged,
    Freed,
    OwnFlat(u8), // flat for the thread, with this count
    OwnReserved(u8), // reserved for the thread, with this count
    Cancelled, // reserved with count c: free if c is 0, else flat for its thread with count c - 1
    Inflated, // fat
}

// What a rule sees of its object.
#[derive(Clone, Copy)]
pub struct Sight {
    pub word: WordSeen,
    pub flag: bool, // contention flag
    pub holder: u8, // the monitor's holder, 0 for none
    pub depth: Depth, // the monitor's depth
    pub entryempty: bool, // nobody is in the entry chain
    pub contentionempty: bool, // nobody is in the contention chain
    pub waiters: u8, // how many are in the waiting chain
}

// Which threads of a chain a move takes.
#[derive(Clone, Copy)]
pub enum Taken {
    First, // the first, if there is one
    All, // all, in order
}

// What a step does with the chains of its object. A moved thread goes to the end of entry and is queued: a contender carries 6, a waiter 15.
#[derive(Clone, Copy)]
pub enum ChainWork {
    Stay, // nothing
    Join(Chain), // the thread joins that chain
    JoinAndHand(Chain), // the thread hands the monitor over and joins that chain, which is not entry
    Hand, // the first of entry leaves it and becomes holder at depth 0
    Move(Chain, Taken), // these threads of that chain move to entry
    MoveAndLetOut, // all contenders move to entry, and every queued exit is let out of it: it is idle
    SendBack(u16), // that thread, if it is at its store, goes back to its look
}

// What a step answers.
#[derive(Clone, Copy)]
pub enum Answer {
    GoneOn, // 0
    Finished(u8), // 1, with the woken number: how many a notify woke; of a wait 1 if it ran out
    Parked, // 2
    NotOwner, // 18
    TooDeep, // 19
    NoRule, // 20
}

// What a rule does: the work on chains, the thread's next state, the word, flag, holder and depth after it, the answer, and whether it commits.
// Where the work hands the monitor over, holder and depth are set by the handing.
#[derive(Clone, Copy)]
pub struct Effect {
    pub work: ChainWork,
    pub state: ThreadState,
    pub word: WordChange,
    pub flag: bool,
    pub holder: u8,
    pub depth: Depth,
    pub answer: Answer,
    pub commits: bool,
}
