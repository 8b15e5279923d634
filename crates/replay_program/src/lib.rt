// A program, from its input to its output: the replay (document 01, "The replay program") or the report (document 02, L4).
// Input and output pass through two fixed buffers, so that neither has a limit. The run ends with the input, before it where the state is over, or at
// the first read or write that fails.
#![tactic(auto)]

mod ending;
mod moving;
mod running;

ghost use Rattle.std.specs.Prelude.{◌≡◌, length};
ghost use Rattle.replay_program.specs.Run.{Tells, WritesReplay};

use running::Ran;
use std::io::{Read, Write};
use std::process::ExitCode;

// How a run went, the byte that tells of it, which is the digit of the exit status, and that status for `main`.
#[derive(Clone, Copy)]
pub struct Told {
    pub ran: Ran,
    pub byte: u8,
    pub code: ExitCode,
}

// 65,536 zeros.
fn large_buffer() -> [u8; 65536]
    ensures { length result ≡ 65536 }
{
    [0; 65536]
}

// Runs the report or the replay, and tells how it ended. What fails is said on `errors`.
pub fn run_program<R: Read, W: Write, E: Write>(
    reporting: bool,
    input: &mut R,
    output: &mut W,
    errors: &mut E,
) -> Told
    ensures told { Tells reporting (R.remaining input.old) (R.remaining input.new)
        (W.contents output.old) (W.contents output.new) result }
    ensures printed { WritesReplay reporting (R.remaining input.old)
        (W.contents output.old) (W.contents output.new) result.ran.ending }
{
    let mut buffer = large_buffer();
    let mut out = large_buffer();
    let ran = running::run(reporting, input, output, errors, &mut buffer, &mut out);
    let ending = ran.ending;
    let byte = ending::ending_byte(ending);
    let code = ending::exit_code(ending);
    Told { ran, byte, code }
}
