// The run of a program: what was read is fed to its stream, and what that gives is written.
ghost use Rattle.std.specs.Prelude.{◌≡◌, ◌≤◌, ◌-◌, length};
ghost use Rattle.replay_text.specs.Text.{line_room};
ghost use Rattle.replay_parts.specs.Keeping.{keep_rest};
ghost use Rattle.replay_parts.specs.Part.{end_room};
ghost use Rattle.replay_program.specs.Run.{DrainsTo, TakesTo, RunsOn};

use crate::ending::Ending;
use crate::moving::{read_behind, write_out};
use program_state::state_over;
use replay_stream::Stream;
use std::io::{Read, Write};

// A stream, and where the bytes that it has not taken begin.
#[derive(Clone, Copy)]
pub struct Drained {
    pub stream: Stream,
    pub from: usize,
}

// A stream, and how many bytes that it has not taken stand at the front of the buffer. The buffer is the program's only one, of a fixed size, so the count
// goes beside it.
#[derive(Clone, Copy)]
pub struct Held {
    pub stream: Stream,
    pub held: usize,
}

// The stream at the end of a run, and how many bytes that it has not taken stand at the front of the buffer.
#[derive(Clone, Copy)]
pub struct Ran {
    pub stream: Stream,
    pub held: usize,
    pub ending: Ending,
}

// Feeds the input and writes what it prints, until nothing more is taken, or an `Err`, a write fails. `last` says that the input ends behind these
// bytes. Which program it is, its output and where it says why a write failed go together from here to the one write. A struct of them would hold two
// borrows, to be lent anew for each call, and be no shorter than the three.
fn drain<W: Write, E: Write>(
    reporting: bool,
    output: &mut W,
    errors: &mut E,
    start: Stream,
    input: &[u8],
    last: bool,
    out: &mut [u8],
) -> Result<Drained, Drained>
    requires { end_room ≤ length out.old }
    ensures { DrainsTo (W.contents output.old) (W.contents output.new) start last input.now result }
{
    let mut stream = start;
    let mut rest = input;
    loop {
        let progress = replay_stream::feed(stream, rest, last, out);
        let wrote = progress.wrote;
        let used = progress.used;
        stream = progress.stream;
        let written = write_out(reporting, output, errors, &out[..wrote]);
        rest = &rest[used..];
        let from = input.len() - rest.len();
        if written.is_err() {
            return Err(Drained { stream, from });
        }
        if used == 0 {
            return Ok(Drained { stream, from });
        }
    }
}

// Keeps what is left of the buffer's first bytes at its front.
fn keep(buffer: &mut [u8], held: usize, drained: Drained) -> Held
    requires { drained.from ≤ held }
    ensures left { result ≡ record { stream = drained.stream; held = held - drained.from } }
    ensures kept { buffer.new ≡ keep_rest drained.from held buffer.old }
{
    replay_parts::keep_rest(buffer, drained.from, held);
    Held {
        stream: drained.stream,
        held: held - drained.from,
    }
}

// Feeds the bytes that the buffer holds, and keeps what is left of them at its front; in an `Err`, a write failed.
fn take_part<W: Write, E: Write>(
    reporting: bool,
    output: &mut W,
    errors: &mut E,
    start: Stream,
    buffer: &mut [u8],
    held: usize,
    last: bool,
    out: &mut [u8],
) -> Result<Held, Held>
    requires { (held ≤ length buffer.old) × (end_room ≤ length out.old) }
    ensures { TakesTo (W.contents output.old) (W.contents output.new) start last held buffer.old buffer.new result }
{
    match drain(reporting, output, errors, start, &buffer[..held], last, out) {
        Ok(drained) => Ok(keep(buffer, held, drained)),
        Err(drained) => Err(keep(buffer, held, drained)),
    }
}

// Reads and feeds until the input ends, the run stops before it, or a read or a write fails.
pub(crate) fn run<R: Read, W: Write, E: Write>(
    reporting: bool,
    input: &mut R,
    output: &mut W,
    errors: &mut E,
    buffer: &mut [u8],
    out: &mut [u8],
) -> Ran
    requires { (line_room ≤ length buffer.old) × (end_room ≤ length out.old) }
    ensures { RunsOn reporting (R.remaining input.old) (R.remaining input.new)
        (W.contents output.old) (W.contents output.new) buffer.new result }
{
    let mut stream = replay_stream::fresh_stream(reporting);
    let mut held: usize = 0;
    for _ in 0..u64::MAX {
        let Ok(count) = read_behind(reporting, input, errors, buffer, held) else {
            break;
        };
        let last = count == held;
        match take_part(reporting, output, errors, stream, buffer, count, last, out) {
            Ok(part) => {
                stream = part.stream;
                held = part.held;
            }
            Err(part) => {
                return Ran {
                    stream: part.stream,
                    held: part.held,
                    ending: Ending::WriteFailed,
                };
            }
        }
        if state_over(stream.state) {
            return Ran {
                stream,
                held,
                ending: Ending::Stopped,
            };
        }
        if last {
            return Ran {
                stream,
                held,
                ending: Ending::AllRead,
            };
        }
    }
    Ran {
        stream,
        held,
        ending: Ending::ReadFailed,
    }
}
