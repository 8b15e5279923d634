// Where a run is: whose turn it is, how many steps the turn may still take, whether the round has had a step, and how many rounds may follow it. A run
// whose turn may take no step is over.
ghost use Rattle.std.specs.Prelude.{◌≡◌, ◌-◌, ◌*◌, ◌≤◌};
ghost use Rattle.lock_engine.specs.Outcome.{reply_returned};
ghost use Rattle.step_bounds.specs.SixSteps.{is_step};
ghost use Rattle.dispatch_rules.specs.Attempt.{goes_on};
ghost use Rattle.dispatch_rules.specs.Dispatch.{operations_left, most_steps};
ghost use Rattle.dispatch_core.specs.Position.{cursor_room, round_room, first_position, next_position};

use dispatch_rules::{DispatchRefusal, ScriptCursor};
use lock_engine::Reply;
use lock_rules::Answer;
use lock_table::{THREADS, thread_place};

// The steps of a run are at most so many for each operation that is still to begin, and for each thread.
const STEP_WEIGHT: u64 = 205;

#[derive(Clone, Copy)]
pub(crate) struct Position {
    pub thread: u8,
    pub left: u32,
    pub stepped: bool,
    pub rounds: u64,
}

#[tactic(auto, using(lock_table::proofs::Places::place_inside))]
fn operations_left(threads: u8, cursors: [ScriptCursor; THREADS as usize]) -> u64
    ensures value { result ≡ operations_left threads cursors }
    ensures small { result ≤ threads * cursor_room }
{
    let mut total = 0;
    for place in 0..threads {
        let cursor = cursors[thread_place(place + 1)];
        total += u64::from(cursor.length.saturating_sub(cursor.cursor));
    }
    total
}

pub(crate) fn most_steps(threads: u8, cursors: [ScriptCursor; THREADS as usize]) -> u64
    ensures value { result ≡ most_steps threads cursors }
    ensures small { result ≤ threads * round_room }
{
    STEP_WEIGHT * (operations_left(threads, cursors) + u64::from(threads))
}

// A turn that may take no step. An Option in its place would be no plainer: a quantum of 0 makes turns without a step too, so the loop asks for `left`.
const OVER: Position = Position {
    thread: 1,
    left: 0,
    stepped: false,
    rounds: 0,
};

// The first thread's turn, or over at once where the run is refused.
#[tactic(auto, unfolding(crate::specs::Position::first_position))]
pub(crate) fn first_position(
    answer: Result<(), DispatchRefusal>,
    quantum: u32,
    rounds: u64,
) -> Position
    ensures { result ≡ first_position answer quantum rounds }
{
    match answer {
        Ok(()) => Position {
            thread: 1,
            left: quantum,
            stepped: false,
            rounds,
        },
        Err(_) => OVER,
    }
}

// After a thread might take a step: it did, or not, and its turn may go on, or not. A turn that is over is followed by the next thread's, or by the first
// one's in another round, if this one had a step.
#[tactic(auto, unfolding(crate::specs::Position::next_position, crate::specs::Position::after_turn))]
pub(crate) fn next_position(
    threads: u8,
    quantum: u32,
    position: Position,
    took: bool,
    on: bool,
) -> Position
    ensures { result ≡ next_position threads quantum position took on }
{
    let stepped = position.stepped || took;
    if took && on && 1 < position.left {
        return Position {
            left: position.left - 1,
            stepped,
            ..position
        };
    }
    if position.thread < threads {
        return Position {
            thread: position.thread + 1,
            left: quantum,
            stepped,
            ..position
        };
    }
    if stepped && 0 < position.rounds {
        return Position {
            thread: 1,
            left: quantum,
            stepped: false,
            rounds: position.rounds - 1,
        };
    }
    OVER
}

// Whether this is the reply to a step that was taken: 0, 1, 2, 18 or 19.
#[tactic(auto, using(lock_rules::proofs::RefusalNumbers::of_gate), unfolding(lock_engine::specs::Outcome::reply_returned))]
pub(crate) fn is_step(reply: Reply) -> bool
    ensures { result ≡ is_step (reply_returned reply) }
{
    !matches!(reply, Reply::Refused(_) | Reply::Answered(Answer::NoRule))
}

// A park ends the turn.
#[tactic(auto, using(lock_rules::proofs::RefusalNumbers::of_gate), unfolding(lock_engine::specs::Outcome::reply_returned))]
pub(crate) fn goes_on(reply: Reply) -> bool
    ensures { result ≡ goes_on (reply_returned reply) }
{
    !matches!(reply, Reply::Answered(Answer::Parked))
}
