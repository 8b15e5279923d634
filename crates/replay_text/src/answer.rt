// The lines that the replay program prints.
ghost use Rattle.std.specs.Prelude.{◌+◌, ◌≤◌, length};
ghost use Rattle.replay_text.specs.Text.{line_room, tick_line, answer_line, answer_text};
ghost use Rattle.replay_text.specs.Written.{Wrote, Put};

use crate::bytes::{NEWLINE, SPACE};
use crate::fields::{has_room, put_field, put_hexadecimal};

// What the program prints of one line of its input. Nothing is one of four answers, which the laws of both programs name; an `Option` of the
// other three would not make their definitions plainer.
#[derive(Clone, Copy)]
pub enum Answer {
    // of a header that opens the schedule, and of what follows the end of the run
    Silent,
    // of a refused event and of a malformed line: the number alone
    Alone {
        number: u16,
    },
    // of an accepted tick; `unparked` is the set of the threads that it unparked
    Ticked {
        returned: u8,
        unparked: u32,
    },
    // of an accepted event of a thread
    Accepted {
        returned: u8,
        phase: u8,
        woken: u8,
        word: u32,
        unparked: u32,
    },
}

// No line of the replay program is longer.
pub const LINE_ROOM: usize = 64;

const WORD_DIGITS: usize = 6;

const SET_DIGITS: usize = 8;

// All of an accepted tick's line.
fn put_tick(out: &mut [u8], at: usize, returned: u8, unparked: u32) -> usize
    requires { at + line_room ≤ length out.old }
    ensures { Wrote out.old out.new at result (tick_line returned unparked) }
{
    let second = put_field(out, at, u32::from(returned), SPACE);
    put_hexadecimal(out, second, SET_DIGITS, unparked, NEWLINE)
}

// All of the line of a thread's accepted event.
#[tactic(auto, using(crate::proofs::Lengths::hexadecimal_length))]
fn put_fields(
    out: &mut [u8],
    at: usize,
    returned: u8,
    phase: u8,
    woken: u8,
    word: u32,
    unparked: u32,
) -> usize
    requires { at + line_room ≤ length out.old }
    ensures { Wrote out.old out.new at result (answer_line returned phase woken word unparked) }
{
    let second = put_field(out, at, u32::from(returned), SPACE);
    let third = put_field(out, second, u32::from(phase), SPACE);
    let fourth = put_field(out, third, u32::from(woken), SPACE);
    let fifth = put_hexadecimal(out, fourth, WORD_DIGITS, word, SPACE);
    put_hexadecimal(out, fifth, SET_DIGITS, unparked, NEWLINE)
}

// The line of an answer, if it has one, where there is room for any.
#[tactic(auto, using(crate::proofs::Stores::wrote_nothing), unfolding(crate::specs::Text::answer_text))]
fn put_line(out: &mut [u8], at: usize, answer: Answer) -> usize
    requires { at + line_room ≤ length out.old }
    ensures { Wrote out.old out.new at result (answer_text answer) }
{
    match answer {
        Answer::Silent => at,
        Answer::Alone { number } => put_field(out, at, u32::from(number), NEWLINE),
        Answer::Ticked { returned, unparked } => put_tick(out, at, returned, unparked),
        Answer::Accepted {
            returned,
            phase,
            woken,
            word,
            unparked,
        } => put_fields(out, at, returned, phase, woken, word, unparked),
    }
}

// The line of an answer, if it has one.
#[tactic(auto, using(crate::proofs::Room::put_written, crate::proofs::Room::put_refused))]
pub fn put_answer(out: &mut [u8], at: usize, answer: Answer) -> usize
    ensures { Put line_room out.old out.new at result (answer_text answer) }
{
    if !has_room(LINE_ROOM, out.len(), at) {
        return at;
    }
    put_line(out, at, answer)
}
