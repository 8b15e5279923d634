// The state between two lines.
ghost use Rattle.std.specs.Prelude.{◌≡◌};
ghost use Rattle.laws.specs.Choice.{pick};
ghost use Rattle.replay_session.specs.Session.{fresh_session};
ghost use Rattle.program_state.specs.State.{no_schedule, fresh_state};
ghost use Rattle.program_state.specs.Take.{state_over};

use replay_session::{Session, Stage, fresh_session, session_over};
use report_tally::{MOST_LINES, Tally, fresh_tally};

#[derive(Clone, Copy)]
pub struct State {
    // the program is the report
    pub reporting: bool,
    // of the schedule that is replayed
    pub session: Session,
    // of all schedules; the replay leaves it alone, and has one all the same: the definitions of both programs are stated of one state
    pub tally: Tally,
}

// No schedule is open: a line that is no header does nothing.
fn no_schedule() -> Session
    ensures { result ≡ no_schedule }
{
    Session {
        stage: Stage::Over,
        ..fresh_session()
    }
}

fn first_session(reporting: bool) -> Session
    ensures { result ≡ pick reporting no_schedule fresh_session }
{
    if reporting {
        no_schedule()
    } else {
        fresh_session()
    }
}

pub fn fresh_state(reporting: bool) -> State
    ensures { result ≡ fresh_state reporting }
{
    State {
        reporting,
        session: first_session(reporting),
        tally: fresh_tally(),
    }
}

// Whether the run has ended before its input: the replay's by a bad header, the report's by too many lines.
#[tactic(auto, unfolding(crate::specs::Take::state_over))]
pub fn state_over(state: State) -> bool
    ensures { result ≡ state_over state }
{
    if state.reporting {
        return MOST_LINES < state.tally.lines;
    }
    session_over(state.session)
}
