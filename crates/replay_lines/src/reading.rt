// What a line says. The letter picks the reader; each reader takes its fields one behind the other, and the end of the line.
ghost use Rattle.std.specs.Prelude.{◌≡◌};
ghost use Rattle.replay_lines.specs.Grammar.{end_line, read_step, read_event, read_begin, read_begin_object, read_begin_limit, read_header, read_header_objects, read_header_reserved, is_header, operation_of, read_line};

use crate::number::read_field;
use replay_text::NEWLINE;

// The number of the one operation that has a limit. The crates of the text stand on none of the locks, so that lines are read as document 01 writes
// them and without an engine.
const TIMED_WAIT: u8 = 6;

// What both programs are told of a line. One of no form is a line too, of two kinds: the report counts the one and takes the other for a
// header, and the laws of both programs name them (`header_begins`, `long_line`). The readers of forms below give an `Option`.
#[derive(Clone, Copy)]
pub enum Line {
    Header {
        threads: u16,
        objects: u16,
        reserved: bool,
    },
    // document 01's number of the operation: 1 enter, 2 exit, 3 wait, 4 notify, 5 notify all; request L1's: 6 timed wait
    Begin {
        operation: u8,
        thread: u16,
        object: u16,
        // of a timed wait; 0 for the others
        limit: u16,
    },
    Step {
        thread: u16,
    },
    // one tick of the clock
    Tick,
    // a line that begins with L and has not the header's form
    BadHeader,
    Malformed,
}

// The line, if the newline is all that is left of its text.
#[tactic(auto, using(crate::proofs::Grammar::end_other, crate::proofs::Grammar::end_one))]
fn end_line(text: &[u8], line: Line) -> Option<Line>
    ensures { result ≡ end_line text.now line }
{
    match text {
        [NEWLINE] => Some(line),
        _ => None,
    }
}

// Behind S: the thread.
#[tactic(auto, using(crate::proofs::Grammar::field_fits, crate::proofs::Grammar::field_next), unfolding(crate::specs::Grammar::read_step))]
fn read_step(text: &[u8]) -> Option<Line>
    ensures { result ≡ read_step text.now }
{
    let thread = read_field(text)?;
    end_line(
        &text[thread.length..],
        Line::Step {
            thread: thread.value,
        },
    )
}

// Behind the letter of an operation: the thread.
#[tactic(auto, using(crate::proofs::Grammar::field_fits, crate::proofs::Grammar::field_next), unfolding(crate::specs::Grammar::read_begin))]
fn read_begin(operation: u8, text: &[u8]) -> Option<Line>
    ensures { result ≡ read_begin operation text.now }
{
    let thread = read_field(text)?;
    read_begin_object(operation, thread.value, &text[thread.length..])
}

// Behind the thread: the object.
#[tactic(auto, using(crate::proofs::Grammar::field_fits, crate::proofs::Grammar::field_next), unfolding(crate::specs::Grammar::read_begin_object))]
fn read_begin_object(operation: u8, thread: u16, text: &[u8]) -> Option<Line>
    ensures { result ≡ read_begin_object operation thread text.now }
{
    let object = read_field(text)?;
    read_begin_limit(operation, thread, object.value, &text[object.length..])
}

// Behind the object: the limit of a timed wait, or the end of the line.
#[tactic(auto, using(crate::proofs::Grammar::field_fits, crate::proofs::Grammar::field_next), unfolding(crate::specs::Grammar::read_begin_limit))]
fn read_begin_limit(operation: u8, thread: u16, object: u16, text: &[u8]) -> Option<Line>
    ensures { result ≡ read_begin_limit operation thread object text.now }
{
    if operation != TIMED_WAIT {
        return end_line(
            text,
            Line::Begin {
                operation,
                thread,
                object,
                limit: 0,
            },
        );
    }
    let limit = read_field(text)?;
    end_line(
        &text[limit.length..],
        Line::Begin {
            operation,
            thread,
            object,
            limit: limit.value,
        },
    )
}

// Behind L: how many threads.
#[tactic(auto, using(crate::proofs::Grammar::field_fits, crate::proofs::Grammar::field_next), unfolding(crate::specs::Grammar::read_header))]
fn read_header(text: &[u8]) -> Option<Line>
    ensures { result ≡ read_header text.now }
{
    let threads = read_field(text)?;
    read_header_objects(threads.value, &text[threads.length..])
}

// Behind the threads: how many objects.
#[tactic(auto, using(crate::proofs::Grammar::field_fits, crate::proofs::Grammar::field_next), unfolding(crate::specs::Grammar::read_header_objects))]
fn read_header_objects(threads: u16, text: &[u8]) -> Option<Line>
    ensures { result ≡ read_header_objects threads text.now }
{
    let objects = read_field(text)?;
    read_header_reserved(threads, objects.value, &text[objects.length..])
}

// Behind the objects: 1 for reserved words, 0 for free ones.
#[tactic(auto, using(crate::proofs::Fields::rest_of, crate::proofs::Grammar::field_fits), unfolding(crate::specs::Grammar::read_header_reserved))]
fn read_header_reserved(threads: u16, objects: u16, text: &[u8]) -> Option<Line>
    ensures { result ≡ read_header_reserved threads objects text.now }
{
    let reserved = read_field(text)?;
    if 1 < reserved.value {
        return None;
    }
    end_line(
        &text[reserved.length..],
        Line::Header {
            threads,
            objects,
            reserved: reserved.value == 1,
        },
    )
}

// Whether a line begins with L.
#[tactic(auto, unfolding(crate::specs::Grammar::is_header))]
pub fn is_header(line: Line) -> bool
    ensures { result ≡ is_header line }
{
    matches!(line, Line::Header { .. } | Line::BadHeader)
}

// The number of the operation with this letter.
#[tactic(auto, using(laws::proofs::Choice::tests), unfolding(crate::specs::Grammar::operation_of))]
fn operation_of(letter: u8) -> Option<u8>
    ensures { result ≡ operation_of letter }
{
    match letter {
        b'E' => Some(1),
        b'X' => Some(2),
        b'W' => Some(3),
        b'N' => Some(4),
        b'A' => Some(5),
        b'V' => Some(TIMED_WAIT),
        _ => None,
    }
}

// What a whole line says that does not begin with L, by its letter and the text behind it.
fn read_event(letter: u8, text: &[u8]) -> Option<Line>
    ensures { result ≡ read_event letter text.now }
{
    match letter {
        b'S' => read_step(text),
        b'C' => end_line(text, Line::Tick),
        _ => read_begin(operation_of(letter)?, text),
    }
}

// What a whole line says, its newline with it.
#[tactic(auto, unfolding(crate::specs::Grammar::read_line))]
pub fn read_line(line: &[u8]) -> Line
    ensures { result ≡ read_line line.now }
{
    match line {
        [] => Line::Malformed,
        [b'L', text @ ..] => read_header(text).unwrap_or(Line::BadHeader),
        [letter, text @ ..] => read_event(*letter, text).unwrap_or(Line::Malformed),
    }
}
