// What a line does to the state, for a caller that knows whether the session's table is sound. The tally's rows are left to the caller: only an event
// of a thread in a running session counts there, and that is carried out in place. So `reporting` and the tally's two numbers are passed one by one,
// as the definitions name them: these functions have no use for the rows.
ghost use Rattle.std.specs.Prelude.{◌≡◌};
ghost use Rattle.laws.specs.Choice.{pick};
ghost use Rattle.replay_session.specs.Trusting.{line_event};
ghost use Rattle.program_state.specs.Take.{excess_answer};
ghost use Rattle.program_state.specs.Trusting.{line_reaction, line_answer, one_further, lines_after, largest_after, runs_in_place, sound_after};

use lock_rules::Event;
use lock_table::Table;
use replay_lines::{Line, is_header};
use replay_session::{Reaction, Session, Stage, fresh_session, react_trusting, running_event};
use replay_text::Answer;
use report_tally::MOST_LINES;

const TOO_MANY_LINES: u16 = 24;

// One line more than a run may hold is answered, and those behind it are not.
#[tactic(auto, unfolding(crate::specs::Take::excess_answer))]
fn excess_answer(lines: u16) -> Answer
    ensures { result ≡ excess_answer lines }
{
    if MOST_LINES < lines {
        return Answer::Silent;
    }
    Answer::Alone {
        number: TOO_MANY_LINES,
    }
}

// What a line does to the session: a header of the report ends the schedule before it and opens another, if it is good; a line too many does nothing.
#[tactic(auto, unfolding(crate::specs::Trusting::line_reaction))]
pub fn line_reaction(
    reporting: bool,
    lines: u16,
    stage: Stage,
    table: Table,
    line: Line,
    issound: bool,
) -> Reaction
    ensures { result ≡ line_reaction reporting lines stage table line issound }
{
    if reporting && is_header(line) {
        return react_trusting(fresh_session(), line, issound);
    }
    let session = Session { stage, table };
    if reporting && MOST_LINES <= lines {
        return Reaction {
            session,
            answer: Answer::Silent,
        };
    }
    react_trusting(session, line, issound)
}

// What is printed of it: the report prints no answer of a session.
#[tactic(auto, unfolding(crate::specs::Trusting::line_answer))]
pub fn line_answer(reporting: bool, lines: u16, line: Line, answer: Answer) -> Answer
    ensures { result ≡ line_answer reporting lines line answer }
{
    if !reporting {
        return answer;
    }
    if is_header(line) || lines < MOST_LINES {
        return Answer::Silent;
    }
    excess_answer(lines)
}

// The counter stops one line behind the most that a run may hold.
#[tactic(auto, unfolding(crate::specs::Trusting::one_further))]
fn one_further(lines: u16) -> u16
    ensures { result ≡ one_further lines }
{
    lines.min(MOST_LINES) + 1
}

// The report counts the lines that are no headers.
#[tactic(auto, unfolding(crate::specs::Trusting::lines_after))]
pub fn lines_after(reporting: bool, lines: u16, line: Line) -> u16
    ensures { result ≡ lines_after reporting lines line }
{
    if reporting && !is_header(line) {
        return one_further(lines);
    }
    lines
}

// And keeps the most objects that a header's table has: a bad header's has none.
#[tactic(auto, unfolding(crate::specs::Trusting::largest_after))]
pub fn largest_after(reporting: bool, largest: u8, line: Line, objects: u8) -> u8
    ensures { result ≡ largest_after reporting largest line objects }
{
    if reporting && is_header(line) {
        return largest.max(objects);
    }
    largest
}

// Whether the session's table is sound after the line: a header of the report opens another session, whose table is new, and so sound.
#[tactic(auto, unfolding(crate::specs::Trusting::sound_after))]
pub fn sound_after(reporting: bool, line: Line, issound: bool) -> bool
    ensures { result ≡ sound_after reporting line issound }
{
    if reporting {
        return issound || is_header(line);
    }
    issound
}

// The event of a thread that a line asks for, if a caller may carry it out in place: in a running session, and for the report while a run may hold
// more lines.
#[tactic(auto, unfolding(crate::specs::Trusting::runs_in_place))]
pub fn event_in_place(reporting: bool, lines: u16, stage: Stage, line: Line) -> Option<Event>
    ensures { result ≡ pick (runs_in_place reporting lines stage line) (Some (line_event line)) None }
{
    if reporting && MOST_LINES <= lines {
        return None;
    }
    running_event(stage, line)
}
