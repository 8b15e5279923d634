// How a run ended, and the exit status and the byte that say so.
ghost use Rattle.std.specs.Prelude.{◌≡◌};
ghost use Rattle.std.specs.Process.{exit_status};
ghost use Rattle.replay_program.specs.Run.{status_of, ending_byte};

use std::process::ExitCode;

#[derive(Clone, Copy)]
pub enum Ending {
    AllRead = 0,
    // before its input: the replay's by a bad header or none, the report's by too many lines
    Stopped = 3,
    ReadFailed = 4,
    WriteFailed = 5,
}

// The exit status that stands for the ending: its number above.
#[tactic(auto, unfolding(crate::specs::Run::status_of))]
fn status_of(ending: Ending) -> u8
    ensures { result ≡ status_of ending }
{
    ending as u8
}

// The digit of the exit status that stands for the ending.
#[tactic(auto, unfolding(crate::specs::Run::ending_byte, crate::specs::Run::status_of))]
pub(crate) fn ending_byte(ending: Ending) -> u8
    ensures { result ≡ ending_byte ending }
{
    b'0' + status_of(ending)
}

// What `main` hands back, so that the program ends with that status.
pub(crate) fn exit_code(ending: Ending) -> ExitCode
    ensures { exit_status result ≡ status_of ending }
{
    ExitCode::from(status_of(ending))
}
