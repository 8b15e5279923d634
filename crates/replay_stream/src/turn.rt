// A line without a newline, read and answered; and what the end of the input prints.
ghost use Rattle.std.specs.Prelude.{◌≡◌, ◌+◌, ◌≤◌, length};
ghost use Rattle.replay_lines.specs.Cutting.{line_end};
ghost use Rattle.replay_text.specs.Text.{line_room};
ghost use Rattle.replay_text.specs.Row.{report_room};
ghost use Rattle.replay_session.specs.Trusting.{session_sound};
ghost use Rattle.replay_stream.specs.Stream.{Turned, Closed};

use program_state::{
    State, closed_state, largest_after, line_answer, line_reaction, lines_after, put_closing,
};
use report_tally::Tally;

// A state after a line, and the place behind what the line prints.
#[derive(Clone, Copy)]
pub struct Turn {
    pub state: State,
    pub wrote: usize,
}

// A line without a newline: the start of one that is too long, or the last piece of the input. It is no event.
pub(crate) fn take_line(state: State, issound: bool, line: &[u8], out: &mut [u8], at: usize) -> Turn
    requires { (at + line_room ≤ length out.old) × (issound ≡ session_sound state.session) × (line_end line.now ≡ 0) }
    ensures { Turned state line.now out.old out.new at result }
{
    let said = replay_lines::read_line(line);
    let State {
        reporting,
        session,
        tally,
    } = state;
    let reaction = line_reaction(
        reporting,
        tally.lines,
        session.stage,
        session.table,
        said,
        issound,
    );
    let next = reaction.session;
    let answer = line_answer(reporting, tally.lines, said, reaction.answer);
    let wrote = replay_text::put_answer(out, at, answer);
    Turn {
        state: State {
            reporting,
            session: next,
            tally: Tally {
                lines: lines_after(reporting, tally.lines, said),
                largest: largest_after(reporting, tally.largest, said, next.table.objectcount),
                ..tally
            },
        },
        wrote,
    }
}

// The end of the input.
pub(crate) fn close(state: State, out: &mut [u8], at: usize) -> Turn
    requires { at + report_room ≤ length out.old }
    ensures { Closed state out.old out.new at result }
{
    let wrote = put_closing(out, at, state);
    Turn {
        state: closed_state(state),
        wrote,
    }
}
