// The state between two lines.
ghost use Rattle.std.specs.Prelude.{◌≡◌};
ghost use Rattle.replay_session.specs.Session.{fresh_session, over_by, session_over};
ghost use Rattle.replay_session.specs.Trusting.{sound_by, session_sound};

use lock_table::{Table, no_table};

#[derive(Clone, Copy)]
pub enum Stage {
    // the header is to come
    Opening,
    Running,
    // a bad header has ended the run: nothing more is printed
    Over,
}

#[derive(Clone, Copy)]
pub struct Session {
    pub stage: Stage,
    // all zero unless the stage is Running, and a field at every stage: the definitions of both programs name it
    pub table: Table,
}

pub fn fresh_session() -> Session
    ensures { result ≡ fresh_session }
{
    Session {
        stage: Stage::Opening,
        table: no_table(),
    }
}

#[tactic(auto, unfolding(crate::specs::Trusting::sound_by))]
fn sound_by(stage: Stage, table: Table) -> bool
    ensures { result ≡ sound_by stage table }
{
    match stage {
        Stage::Running => lock_soundness::sound(table),
        Stage::Opening | Stage::Over => true,
    }
}

// Whether the session's table is sound, if it has one yet.
pub fn session_sound(session: Session) -> bool
    ensures { result ≡ session_sound session }
{
    sound_by(session.stage, session.table)
}

#[tactic(auto, unfolding(crate::specs::Session::over_by))]
fn over_by(stage: Stage) -> bool
    ensures { result ≡ over_by stage }
{
    matches!(stage, Stage::Over)
}

// Whether a bad header has ended the run: whatever comes, nothing more is printed (replay_session/proofs/Over.antt).
pub fn session_over(session: Session) -> bool
    ensures { result ≡ session_over session }
{
    over_by(session.stage)
}
