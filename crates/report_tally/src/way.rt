// The way in which an enter finishes, by the phase of the step that finishes it and the lock word before that step.
ghost use Rattle.std.specs.Prelude.{◌≡◌};
ghost use Rattle.report_tally.specs.Way.{finished_number, is_enter, finishes_enter, way_by_meaning, way_by_word, way_of, way_finished};

use lock_engine::{Reply, returned};
use lock_rules::{Answer, Event};
use lock_table::{Operation, Phase, ThreadRecord};
use lock_word::{LockWord, read_word};

// `NoEnter` is a way like the five, and not the `None` of an `Option`: what the report promises (`FiguresRight`, by `Chosen`) is stated of every way,
// and of this one it says that it has no figure and is counted in none.
#[derive(Clone, Copy)]
pub enum Way {
    // no enter finished
    NoEnter,
    // an anonymous word was reserved
    Anonymous,
    // a reserved word of the thread's own was stored
    Reserved,
    // a free word was taken
    Free,
    // a flat word of the thread's own counts one more
    Nested,
    // through the monitor
    Monitor,
}

// The number that a step returns which finishes its operation. Document 02 defines the report by the numbers that are returned, so a step is known by its
// number here, as in the definition `way_finished`.
#[tactic(auto, unfolding(lock_engine::specs::Outcome::reply_returned))]
fn finished() -> u16
    ensures { result ≡ finished_number }
{
    u16::from(returned(Reply::Answered(Answer::Finished(0))))
}

#[tactic(auto, unfolding(crate::specs::Way::is_enter))]
fn is_enter(operation: Operation) -> bool
    ensures { result ≡ is_enter operation }
{
    matches!(operation, Operation::Enter)
}

// Whether an event is a step that finishes an enter, by the operation that its thread was in and the number returned.
#[tactic(auto, unfolding(crate::specs::Way::finishes_enter))]
fn finishes_enter(event: Event, operation: Operation, number: u16) -> bool
    ensures { result ≡ finishes_enter event operation number }
{
    matches!(event, Event::Step { .. }) && is_enter(operation) && number == finished()
}

#[tactic(auto, unfolding(crate::specs::Way::way_by_meaning))]
fn way_by_meaning(word: LockWord) -> Way
    ensures { result ≡ way_by_meaning word }
{
    match word {
        LockWord::Free => Way::Free,
        LockWord::Flat(_, _) => Way::Nested,
        LockWord::Anonymous => Way::Anonymous,
        LockWord::Reserved(_, _) | LockWord::Fat(_) => Way::NoEnter,
    }
}

#[tactic(auto, unfolding(crate::specs::Way::way_by_word))]
fn way_by_word(decoded: Option<LockWord>) -> Way
    ensures { result ≡ way_by_word decoded }
{
    match decoded {
        Some(word) => way_by_meaning(word),
        None => Way::NoEnter,
    }
}

#[tactic(auto, unfolding(crate::specs::Way::way_of))]
fn way_of(phase: Phase, word: u32) -> Way
    ensures { result ≡ way_of phase word }
{
    match phase {
        Phase::Look => way_by_word(read_word(word)),
        Phase::Store => Way::Reserved,
        Phase::GoIn | Phase::Check | Phase::Try => Way::Monitor,
        _ => Way::NoEnter,
    }
}

// The way in which an event finished an enter, if it did, by the thread's record and the object's word before it and by the number returned.
#[tactic(auto, unfolding(crate::specs::Way::way_finished))]
pub fn way_finished(event: Event, own: ThreadRecord, word: u32, number: u16) -> Way
    ensures { result ≡ way_finished event own word number }
{
    let operation = own.operation;
    let phase = own.phase;
    if finishes_enter(event, operation, number) {
        return way_of(phase, word);
    }
    Way::NoEnter
}
