// An event in bytes, for callers that hand over many at once: kind, thread, operation, object, and a limit in four bytes, the lowest first; and its answer
// as one number.
#![tactic(auto)]

ghost use Rattle.std.specs.Prelude.{◌≡◌, ◌%◌, ◌<◌};
ghost use Rattle.event_bytes.specs.Encoding.{limit_from, event_from, event_at};
ghost use Rattle.event_bytes.specs.Answer.{set_unit, free_unit, packed_of};

use lock_rules::Event;

// How many bytes an event has.
pub const EVENT_SIZE: usize = 8;

pub const BEGIN_KIND: u8 = 0;

pub const STEP_KIND: u8 = 1;

pub const TICK_KIND: u8 = 2;

const NO_OPERATION: u8 = 0;

const WOKEN_UNIT: u64 = 256;

const COMMITS_UNIT: u64 = 65536;

const SET_UNIT: u64 = 4294967296;

// The limit of these bytes.
#[tactic(auto, unfolding(crate::specs::Encoding::limit_from))]
pub fn limit_from(first: u8, second: u8, third: u8, fourth: u8) -> u32
    ensures { result ≡ limit_from first second third fourth }
{
    u32::from_le_bytes([first, second, third, fourth])
}

// The event of these bytes. A kind that is none is taken as the begin of no operation, which the engine refuses with 17, as it does a number that is none.
#[tactic(auto, unfolding(crate::specs::Encoding::event_from))]
pub fn event_from(kind: u8, thread: u8, operation: u8, object: u8, limit: u32) -> Event
    ensures { result ≡ event_from kind thread operation object limit }
{
    match kind {
        BEGIN_KIND => Event::Begin {
            operation,
            thread,
            object,
            limit,
        },
        STEP_KIND => Event::Step { thread },
        TICK_KIND => Event::Tick,
        _ => Event::Begin {
            operation: NO_OPERATION,
            thread,
            object,
            limit,
        },
    }
}

// The event of these eight bytes.
pub fn event_of(bytes: &[u8; EVENT_SIZE]) -> Event
    ensures { result ≡ event_at bytes.now 0 }
{
    let [
        kind,
        thread,
        operation,
        object,
        first,
        second,
        third,
        fourth,
    ] = *bytes;
    let limit = limit_from(first, second, third, fourth);
    event_from(kind, thread, operation, object, limit)
}

// An answer: the returned number, the woken number, whether the event committed, and the set of threads that it unparked. Bits 17 to 31 are not used.
// Callers give a reply's numbers, each by the same two calls: events in bytes stand below the engine, and know no reply.
#[tactic(auto, unfolding(crate::specs::Answer::packed_of))]
pub fn packed(returned: u8, woken: u8, commits: bool, unparked: u32) -> u64
    ensures value { result ≡ packed_of returned woken commits unparked }
    ensures free { result % set_unit < free_unit }
{
    u64::from(returned)
        + u64::from(woken) * WOKEN_UNIT
        + u64::from(commits) * COMMITS_UNIT
        + u64::from(unparked) * SET_UNIT
}
