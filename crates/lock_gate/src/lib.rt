// Which refusal an event gets before any rule (document 01, "Returned first"), and whose record and which object's it is about.
#![tactic(auto)]

ghost use Rattle.std.specs.Prelude.{◌≡◌};
ghost use Rattle.laws.specs.Choice.{within};
ghost use Rattle.lock_rules.specs.Gate.{first_refusing, idle_rows, ready_rows, begin_rows, step_rows, limit_fits, event_rows, gate, event_thread, event_object};
ghost use Rattle.lock_gate.specs.Status.{thread_status};

use lock_rules::{Event, Refusal, ThreadStatus};
use lock_table::{Operation, Phase};
use lock_word::TICK_LIMIT;

pub const TIMED_WAIT: u8 = Operation::TimedWait as u8;

// The operations are numbered from 1 to this.
const OPERATION_LIMIT: u8 = TIMED_WAIT;

#[tactic(auto, unfolding(crate::specs::Status::thread_status))]
pub fn thread_status(phase: Phase) -> ThreadStatus
    ensures { result ≡ thread_status phase }
{
    match phase {
        Phase::Idle => ThreadStatus::Idle,
        Phase::Queued(_) | Phase::Contending | Phase::Waiting => ThreadStatus::Parked,
        _ => ThreadStatus::Ready,
    }
}

// 14, 23.
fn begin_status(status: ThreadStatus, islimit: bool) -> Result<(), Refusal>
    ensures { result ≡ first_refusing (idle_rows status islimit) }
{
    match status {
        ThreadStatus::Idle => {
            if !islimit {
                return Err(Refusal::LimitOutOfRange);
            }
            Ok(())
        }
        ThreadStatus::Ready | ThreadStatus::Parked => Err(Refusal::NotIdle),
    }
}

// 15, 16.
fn step_status(status: ThreadStatus) -> Result<(), Refusal>
    ensures { result ≡ first_refusing (ready_rows status) }
{
    match status {
        ThreadStatus::Idle => Err(Refusal::ThreadIdle),
        ThreadStatus::Ready => Ok(()),
        ThreadStatus::Parked => Err(Refusal::ThreadParked),
    }
}

// 12, 17, 13, 14, 23.
fn begin_gate(
    isthread: bool,
    isoperation: bool,
    isobject: bool,
    islimit: bool,
    status: ThreadStatus,
) -> Result<(), Refusal>
    ensures { result ≡ first_refusing (begin_rows isthread isoperation isobject islimit status) }
{
    if !isthread {
        return Err(Refusal::NoSuchThread);
    }
    if !isoperation {
        return Err(Refusal::NoSuchOperation);
    }
    if !isobject {
        return Err(Refusal::NoSuchObject);
    }
    begin_status(status, islimit)
}

// 12, 15, 16.
fn step_gate(isthread: bool, status: ThreadStatus) -> Result<(), Refusal>
    ensures { result ≡ first_refusing (step_rows isthread status) }
{
    if !isthread {
        return Err(Refusal::NoSuchThread);
    }
    step_status(status)
}

// A limit is looked at for a timed wait alone. The operation is the number that the caller gave, which may be none of theirs.
fn limit_fits(operation: u8, limit: u32) -> bool
    ensures { result ≡ limit_fits operation limit }
{
    if operation == TIMED_WAIT {
        return (1..=u32::from(TICK_LIMIT)).contains(&limit);
    }
    true
}

// Whether there is one of this number, where there are so many.
fn is_numbered(number: u8, count: u8) -> bool
    ensures { result ≡ within 1 count number }
{
    (1..=count).contains(&number)
}

// Of an event on a sound table with so many threads and objects.
fn event_gate(threads: u8, objects: u8, event: Event, status: ThreadStatus) -> Result<(), Refusal>
    ensures { result ≡ first_refusing (event_rows threads objects event status) }
{
    match event {
        Event::Begin {
            operation,
            thread,
            object,
            limit,
        } => begin_gate(
            is_numbered(thread, threads),
            is_numbered(operation, OPERATION_LIMIT),
            is_numbered(object, objects),
            limit_fits(operation, limit),
            status,
        ),
        Event::Step { thread } => step_gate(is_numbered(thread, threads), status),
        Event::Tick => Ok(()),
    }
}

// Of an event on a table that is sound or not: 11 comes first.
pub fn gate(
    issound: bool,
    threads: u8,
    objects: u8,
    event: Event,
    status: ThreadStatus,
) -> Result<(), Refusal>
    ensures { result ≡ gate issound threads objects event status }
{
    if !issound {
        return Err(Refusal::NotSound);
    }
    event_gate(threads, objects, event, status)
}

// The thread that an event is of. A tick is of none: it gets the first, whose record it leaves.
pub fn event_thread(event: Event) -> u8
    ensures { result ≡ event_thread event }
{
    match event {
        Event::Begin { thread, .. } | Event::Step { thread } => thread,
        Event::Tick => 1,
    }
}

// The object that an event is about, where the thread's operation is on this one.
pub fn event_object(event: Event, object: u8) -> u8
    ensures { result ≡ event_object event object }
{
    match event {
        Event::Begin { object: named, .. } => named,
        Event::Step { .. } => object,
        Event::Tick => 1,
    }
}
