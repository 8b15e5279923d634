// Events, and what can refuse one before any rule (document 01, "Returned first").

// A thread begins the operation with this number on an object, or takes a single step; or the clock ticks.
#[derive(Clone, Copy)]
pub enum Event {
    Begin {
        // what the caller gives, which may be no operation's number: `gate` answers 17 then
        operation: u8,
        thread: u8,
        object: u8,
        limit: u32, // in ticks; looked at for a timed wait alone
    },
    Step {
        thread: u8,
    },
    Tick,
}

// What a refusal asks of the event's thread.
#[derive(Clone, Copy)]
pub enum ThreadStatus {
    Idle, // phase 0
    Ready, // it can take a step
    Parked, // phase 5, 8 or 14
}

// The refusals before any rule.
#[derive(Clone, Copy)]
pub enum Refusal {
    NotSound, // 11
    NoSuchThread, // 12
    NoSuchObject, // 13, of a begin
    NotIdle, // 14, of a begin
    ThreadIdle, // 15, of a step
    ThreadParked, // 16, of a step
    NoSuchOperation, // 17, of a begin
    LimitOutOfRange, // 23, of a begin
}
