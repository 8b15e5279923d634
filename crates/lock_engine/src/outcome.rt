// What an event gives back, with document 01's numbers.
ghost use Rattle.std.specs.Prelude.{◌≡◌};
ghost use Rattle.lock_rules.specs.Numbers.{refusal_number};
ghost use Rattle.lock_engine.specs.Outcome.{reply_returned, reply_woken};

use lock_rules::{Answer, Refusal};
use lock_table::Table;

#[derive(Clone, Copy)]
pub enum Reply {
    // 0, of a begin or a tick
    Accepted,
    Refused(Refusal),
    // 0, 1, 2, 18, 19 or 20: what the step's rule says
    Answered(Answer),
}

// What an event gives back beside the table, where it is carried out in the table's place. `Outcome` has the same with the table, in fields of its own,
// by which every claim about events is stated.
#[derive(Clone, Copy)]
pub struct Done {
    pub reply: Reply,
    // the event is a committing step
    pub commits: bool,
    // the set of the other threads that the event unparked: bit n - 1 for thread n
    pub unparked: u32,
}

#[derive(Clone, Copy)]
pub struct Outcome {
    pub table: Table,
    pub reply: Reply,
    // the event is a committing step
    pub commits: bool,
    // the set of the other threads that the event unparked: bit n - 1 for thread n
    pub unparked: u32,
}

// The number of a refusal before any rule.
pub fn refusal_number(refusal: Refusal) -> u8
    ensures { result ≡ refusal_number refusal }
{
    u8::from(refusal)
}

// The number returned.
#[tactic(auto, unfolding(crate::specs::Outcome::reply_returned))]
pub fn returned(reply: Reply) -> u8
    ensures { result ≡ reply_returned reply }
{
    match reply {
        Reply::Accepted => 0,
        Reply::Refused(refusal) => u8::from(refusal),
        Reply::Answered(answer) => u8::from(answer),
    }
}

// With 1, how many threads a notify woke, and of a timed wait 1 if it ran out; else 0.
#[tactic(auto, unfolding(crate::specs::Outcome::reply_woken))]
pub fn woken(reply: Reply) -> u8
    ensures { result ≡ reply_woken reply }
{
    match reply {
        Reply::Answered(Answer::Finished(woken)) => woken,
        _ => 0,
    }
}
