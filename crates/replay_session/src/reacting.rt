// What a line does to a session, and what it prints, for a caller that knows whether the session's table is sound.
ghost use Rattle.std.specs.Prelude.{◌≡◌};
ghost use Rattle.laws.specs.Choice.{pick};
ghost use Rattle.lock_rules.specs.Numbers.{first_refusal};
ghost use Rattle.replay_session.specs.Session.{staying, opened_by, open_by, phase_of, word_of, answer_from, answer_with, tick_answer, after_event, after_tick, closing_by, closing_of};
ghost use Rattle.replay_session.specs.Trusting.{event_known, line_event, is_thread_event, runs_thread_event, turn_answer, run_by, react_by, react_trusting};

use crate::session::{Session, Stage};
use lock_engine::{Outcome, Reply, handle_trusting, refusal_number, returned, woken};
use lock_gate::{event_object, event_thread};
use lock_rules::{Event, Refusal};
use lock_table::{
    FreshRefusal, Phase, Table, fresh, fresh_returned, narrow, no_table, object_at, phase_number,
    sized_request, thread_at,
};
use replay_lines::Line;
use replay_text::Answer;

#[derive(Clone, Copy)]
pub struct Reaction {
    pub session: Session,
    pub answer: Answer,
}

const MALFORMED: u16 = 21;

fn stay(stage: Stage, table: Table, answer: Answer) -> Reaction
    ensures { result ≡ staying stage table answer }
{
    Reaction {
        session: Session { stage, table },
        answer,
    }
}

#[tactic(auto, unfolding(crate::specs::Session::opened_by, lock_table::specs::Fresh::fresh_returned))]
fn opened(made: Result<Table, FreshRefusal>) -> Reaction
    ensures { result ≡ opened_by made }
{
    match made {
        Ok(table) => stay(Stage::Running, table, Answer::Silent),
        Err(refusal) => stay(
            Stage::Over,
            no_table(),
            Answer::Alone {
                number: u16::from(fresh_returned(Err(refusal))),
            },
        ),
    }
}

// The first line is the header, or the run is over.
#[tactic(auto, unfolding(crate::specs::Session::open_by))]
fn open_by(table: Table, line: Line) -> Reaction
    ensures { result ≡ open_by table line }
{
    match line {
        Line::Header {
            threads,
            objects,
            reserved,
        } => opened(fresh(sized_request(threads, objects, reserved))),
        _ => stay(Stage::Over, table, Answer::Alone { number: MALFORMED }),
    }
}

fn phase_of(table: Table, thread: u8) -> u8
    ensures { result ≡ phase_of table thread }
{
    phase_number(thread_at(&table, thread).phase)
}

fn word_of(table: Table, object: u8) -> u32
    ensures { result ≡ word_of table object }
{
    object_at(&table, object).word
}

// Numbers from this one on are refusals, which print alone. Document 01 says so by the number, and `answer_from` and `tick_answer` with it.
#[tactic(auto, unfolding(lock_rules::specs::Numbers::refusal_number))]
fn first_refusal() -> u8
    ensures { result ≡ first_refusal }
{
    refusal_number(Refusal::NotSound)
}

// A refusal prints its number alone, whatever is printed of an event that is accepted.
#[tactic(auto, unfolding(crate::specs::Session::answer_from))]
fn answer_from(first: u8, number: u8, accepted: Answer) -> Answer
    ensures { result ≡ answer_from first number accepted }
{
    if first <= number {
        return Answer::Alone {
            number: u16::from(number),
        };
    }
    accepted
}

// What is printed of an accepted event is numbers, that of the phase among them.
fn answer_with(number: u8, phase: u8, woken: u8, word: u32, unparked: u32) -> Answer
    ensures { result ≡ answer_with number phase woken word unparked }
{
    answer_from(
        first_refusal(),
        number,
        Answer::Accepted {
            returned: number,
            phase,
            woken,
            word,
            unparked,
        },
    )
}

fn tick_answer(number: u8, unparked: u32) -> Answer
    ensures { result ≡ tick_answer number unparked }
{
    answer_from(
        first_refusal(),
        number,
        Answer::Ticked {
            returned: number,
            unparked,
        },
    )
}

// What an event of this thread prints; `object` is that of its operation, which may just have finished.
fn after_event(outcome: Outcome, thread: u8, object: u8) -> Reaction
    ensures { result ≡ after_event outcome thread object }
{
    let table = outcome.table;
    let reply = outcome.reply;
    let answer = answer_with(
        returned(reply),
        phase_of(table, thread),
        woken(reply),
        word_of(table, object),
        outcome.unparked,
    );
    stay(Stage::Running, table, answer)
}

fn event_by(table: Table, event: Event, issound: bool) -> Reaction
    ensures { result ≡ event_known table event issound }
{
    let thread = event_thread(event);
    let own = thread_at(&table, thread);
    after_event(
        handle_trusting(table, event, issound),
        thread,
        event_object(event, own.object),
    )
}

// What a tick prints.
fn after_tick(outcome: Outcome) -> Reaction
    ensures { result ≡ after_tick outcome }
{
    let table = outcome.table;
    let reply = outcome.reply;
    let answer = tick_answer(returned(reply), outcome.unparked);
    stay(Stage::Running, table, answer)
}

// A line behind a good header.
#[tactic(auto, unfolding(crate::specs::Trusting::run_by, crate::specs::Trusting::line_event, crate::specs::Trusting::is_thread_event))]
fn run_by(table: Table, line: Line, issound: bool) -> Reaction
    ensures { result ≡ run_by table line issound }
{
    if let Some(event) = thread_event(line) {
        return event_by(table, event, issound);
    }
    match line {
        Line::Tick => after_tick(handle_trusting(table, Event::Tick, issound)),
        _ => stay(Stage::Running, table, Answer::Alone { number: MALFORMED }),
    }
}

#[tactic(auto, unfolding(crate::specs::Trusting::react_by))]
fn react_by(stage: Stage, table: Table, line: Line, issound: bool) -> Reaction
    ensures { result ≡ react_by stage table line issound }
{
    match stage {
        Stage::Opening => open_by(table, line),
        Stage::Running => run_by(table, line, issound),
        Stage::Over => stay(Stage::Over, table, Answer::Silent),
    }
}

// A line is taken by a caller that is trusted to know whether the session's table is sound: with `issound` as session_sound has it this is
// what document 01 says of the line (replay_stream/proofs/SoundSession.antt).
pub fn react_trusting(session: Session, line: Line, issound: bool) -> Reaction
    ensures { result ≡ react_trusting session line issound }
{
    react_by(session.stage, session.table, line, issound)
}

// The event of a thread that a line asks for, if it asks for one.
#[tactic(auto, unfolding(crate::specs::Trusting::line_event, crate::specs::Trusting::is_thread_event))]
fn thread_event(line: Line) -> Option<Event>
    ensures { result ≡ pick (is_thread_event line) (Some (line_event line)) None }
{
    match line {
        Line::Begin {
            operation,
            thread,
            object,
            limit,
        } => Some(Event::Begin {
            operation,
            thread: narrow(u32::from(thread)),
            object: narrow(u32::from(object)),
            limit: u32::from(limit),
        }),
        Line::Step { thread } => Some(Event::Step {
            thread: narrow(u32::from(thread)),
        }),
        _ => None,
    }
}

// The same of any line; of one that asks for none the answer is not used.
#[tactic(auto, unfolding(crate::specs::Trusting::line_event, crate::specs::Trusting::is_thread_event))]
pub fn line_event(line: Line) -> Event
    ensures { result ≡ line_event line }
{
    thread_event(line).unwrap_or(Event::Step { thread: 0 })
}

// The event of a thread that a line asks for in a running session, which a caller may carry out in place. A tick, which touches every object, is left to
// react_trusting.
#[tactic(auto, unfolding(crate::specs::Trusting::runs_thread_event))]
pub fn running_event(stage: Stage, line: Line) -> Option<Event>
    ensures { result ≡ pick (runs_thread_event stage line) (Some (line_event line)) None }
{
    match stage {
        Stage::Running => thread_event(line),
        Stage::Opening | Stage::Over => None,
    }
}

// What an event prints, by its reply, its thread's phase, its object's word and whom it unparked.
pub fn turn_answer(reply: Reply, phase: Phase, word: u32, unparked: u32) -> Answer
    ensures { result ≡ turn_answer reply phase word unparked }
{
    answer_with(
        returned(reply),
        phase_number(phase),
        woken(reply),
        word,
        unparked,
    )
}

#[tactic(auto, unfolding(crate::specs::Session::closing_by))]
fn closing_by(stage: Stage, table: Table) -> Reaction
    ensures { result ≡ closing_by stage table }
{
    match stage {
        Stage::Opening => stay(Stage::Over, table, Answer::Alone { number: MALFORMED }),
        Stage::Running => stay(Stage::Running, table, Answer::Silent),
        Stage::Over => stay(Stage::Over, table, Answer::Silent),
    }
}

// The end of the input: a header that never came is 21, and the run is over.
pub fn closing(session: Session) -> Reaction
    ensures { result ≡ closing_of session }
{
    closing_by(session.stage, session.table)
}
