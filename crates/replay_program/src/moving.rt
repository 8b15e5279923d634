// Reads from an input and writes to an output, tried again where they were interrupted.
ghost use Rattle.std.specs.Prelude.{◌≤◌, ◌≡◌, ◌<◌, ◌-◌, length, take, drop};
ghost use Rattle.std.specs.Io.KnownBytes.{Appends, Consumes, IsAtEnd};
ghost use Rattle.std.specs.Io.{ReadsAtMost};
ghost use Rattle.replay_program.specs.Run.{OnlyFailed, counted, taken, Moves, Arrived, WritesAll, ReadBehind};
ghost use Rattle.replay_program.specs.Messages.{output_name, input_name};

use std::fmt::InlineText;
use std::io;
use std::io::{ErrorKind, Read, Write};

// A read or a write failed, and moved nothing. Why is said on standard error.
#[derive(Clone, Copy)]
pub struct Failed;

// A write failed before all of the bytes were written: how many the writes before it took.
#[derive(Clone, Copy)]
pub struct Unwritten {
    pub taken: usize,
}

// Whether a read or a write that answered `got` is to be tried again.
pub(crate) fn interrupted(got: &io::Result<usize>) -> bool
    ensures { OnlyFailed got.now result }
{
    match got {
        Ok(_) => false,
        Err(error) => error.kind() == ErrorKind::Interrupted,
    }
}

// What a failure is named by on standard error, in the program's name. Output and input have a function each, since
// a definition names each and the arrays differ in length; a slice of one function would hide which texts there are.
#[tactic(auto, unfolding(crate::specs::Messages::output_name))]
fn output_name(reporting: bool) -> [u8; 23]
    ensures { result ≡ output_name reporting }
{
    if reporting {
        return *b"report: standard output";
    }
    *b"replay: standard output"
}

#[tactic(auto, unfolding(crate::specs::Messages::input_name))]
fn input_name(reporting: bool) -> [u8; 22]
    ensures { result ≡ input_name reporting }
{
    if reporting {
        return *b"report: standard input";
    }
    *b"replay: standard input"
}

// The text of an error of the system as C gives it, without the number that std puts behind it.
fn reason(text: &str) -> &str {
    match text.split_once(" (os error ") {
        Some((reason, _)) => reason,
        None => text,
    }
}

// Writes a line to standard error: what failed, as the caller names it, a colon and why. Where that fails nothing more can be said.
fn say_failed<E: Write>(errors: &mut E, name: &[u8], error: &io::Error) {
    let text = InlineText::<320>::of(error);
    let _ = errors.write_all(name);
    let _ = errors.write_all(b": ");
    let _ = errors.write_all(reason(text.as_str()).as_bytes());
    let _ = errors.write_all(b"\n");
}

// The line of a write that took nothing and gave no reason.
fn say_nothing_written<E: Write>(errors: &mut E, name: &[u8]) {
    let _ = errors.write_all(name);
    let _ = errors.write_all(b": nothing was written\n");
}

// One write to the output: the only one in a program. It is no failure where it was interrupted.
fn write_once<W: Write, E: Write>(
    reporting: bool,
    output: &mut W,
    errors: &mut E,
    bytes: &[u8],
) -> Result<usize, Failed>
    ensures moved { Moves (length bytes.now) result }
    ensures wrote { Appends (W.contents output.old) (W.contents output.new) (take (counted 0 result) bytes.now) }
{
    let got = output.write(bytes);
    if interrupted(&got) {
        return Ok(0);
    }
    let name = output_name(reporting);
    match got {
        Ok(0) => {
            say_nothing_written(errors, &name);
            Err(Failed)
        }
        Ok(count) => Ok(count),
        Err(error) => {
            say_failed(errors, &name, &error);
            Err(Failed)
        }
    }
}

// Writes all of the bytes, or stops at the first write that fails.
pub(crate) fn write_out<W: Write, E: Write>(
    reporting: bool,
    output: &mut W,
    errors: &mut E,
    bytes: &[u8],
) -> Result<(), Unwritten>
    ensures moved { WritesAll (length bytes.now) result }
    ensures wrote { Appends (W.contents output.old) (W.contents output.new) (take (taken (length bytes.now) result) bytes.now) }
{
    let mut rest = bytes;
    for _ in 0..u64::MAX {
        if rest.is_empty() {
            return Ok(());
        }
        match write_once(reporting, output, errors, rest) {
            Ok(count) => rest = &rest[count..],
            Err(Failed) => break,
        }
    }
    Err(Unwritten {
        taken: bytes.len() - rest.len(),
    })
}

// What a read that was not interrupted has moved. At the end of the input that is nothing.
fn arrived<E: Write>(
    reporting: bool,
    errors: &mut E,
    got: io::Result<usize>,
    buffer: &[u8],
) -> Result<usize, Failed>
    ensures moved { Moves (length buffer.now) result }
    ensures told { ReadsAtMost got buffer.now → Arrived got result }
{
    match got {
        Ok(count) => Ok(count.min(buffer.len())),
        Err(error) => {
            say_failed(errors, &input_name(reporting), &error);
            Err(Failed)
        }
    }
}

// One read, tried again where it was interrupted.
fn read_once<R: Read, E: Write>(
    reporting: bool,
    input: &mut R,
    errors: &mut E,
    buffer: &mut [u8],
) -> Result<usize, Failed>
    ensures moved { Moves (length buffer.new) result }
    ensures read { Consumes (R.remaining input.old) (R.remaining input.new) (take (counted 0 result) buffer.new) }
    ensures ended { result ≡ Ok 0 → 0 < length buffer.new → IsAtEnd (R.remaining input.new) }
{
    for _ in 0..u64::MAX {
        let got = input.read(buffer);
        if !interrupted(&got) {
            return arrived(reporting, errors, got, buffer);
        }
    }
    Err(Failed)
}

// One read behind the bytes that the buffer holds; how many it then holds.
pub(crate) fn read_behind<R: Read, E: Write>(
    reporting: bool,
    input: &mut R,
    errors: &mut E,
    buffer: &mut [u8],
    held: usize,
) -> Result<usize, Failed>
    requires { held ≤ length buffer.old }
    ensures moved { ReadBehind held buffer.old buffer.new result }
    ensures read { Consumes (R.remaining input.old) (R.remaining input.new) (take (counted held result - held) (drop held buffer.new)) }
    ensures ended { result ≡ Ok held → held < length buffer.new → IsAtEnd (R.remaining input.new) }
{
    let count = read_once(reporting, input, errors, &mut buffer[held..])?;
    Ok(held + count)
}
