// The end of the input.
ghost use Rattle.std.specs.Prelude.{◌≡◌, ◌+◌, ◌≤◌, length};
ghost use Rattle.replay_text.specs.Row.{report_room};
ghost use Rattle.replay_text.specs.Written.{Wrote, Put};
ghost use Rattle.program_state.specs.Take.{report_end, closing_text, closed_state};

use crate::state::State;
use replay_session::closing;
use replay_text::{REPORT_ROOM, has_room, put_answer};
use report_tally::{MOST_LINES, Tally, put_report};

// The report, once, and not where 24 was printed.
#[tactic(auto, using(replay_text::proofs::Stores::wrote_nothing, replay_text::proofs::Room::written_put), unfolding(report_tally::specs::Rows::report_text))]
fn put_report_end(out: &mut [u8], at: usize, tally: Tally) -> usize
    requires { at + report_room ≤ length out.old }
    ensures { Wrote out.old out.new at result (report_end tally) }
{
    if tally.printed || MOST_LINES < tally.lines {
        return at;
    }
    put_report(out, at, tally)
}

#[tactic(auto, using(replay_text::proofs::Room::written_put), unfolding(crate::specs::Take::closing_text))]
fn put_end(out: &mut [u8], at: usize, state: State) -> usize
    requires { at + report_room ≤ length out.old }
    ensures { Wrote out.old out.new at result (closing_text state) }
{
    if state.reporting {
        return put_report_end(out, at, state.tally);
    }
    put_answer(out, at, closing(state.session).answer)
}

// What the end of the input prints, where there is room for any.
#[tactic(auto, using(replay_text::proofs::Room::put_written, replay_text::proofs::Room::put_refused))]
pub fn put_closing(out: &mut [u8], at: usize, state: State) -> usize
    ensures { Put report_room out.old out.new at result (closing_text state) }
{
    if !has_room(REPORT_ROOM, out.len(), at) {
        return at;
    }
    put_end(out, at, state)
}

// The state after it.
#[tactic(auto, unfolding(crate::specs::Take::closed_state))]
pub fn closed_state(state: State) -> State
    ensures { result ≡ closed_state state }
{
    if state.reporting {
        return State {
            tally: Tally {
                printed: true,
                ..state.tally
            },
            ..state
        };
    }
    State {
        session: closing(state.session).session,
        ..state
    }
}
