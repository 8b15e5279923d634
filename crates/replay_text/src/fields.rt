// What the lines of both programs are made of: numbers, each with the byte behind it; and whether a line has room.
ghost use Rattle.std.specs.Prelude.{◌≡◌, ◌+◌, ◌≤◌, ◌<◌, leb, length};
ghost use Rattle.replay_text.specs.Text.{field_limit, field_text, hexadecimal_text};
ghost use Rattle.replay_text.specs.Written.{Wrote};

use crate::bytes::put_byte;
use crate::digits::{put_decimal, put_digits};

const HEXADECIMAL: u32 = 16;

// Whether so many bytes are left from a place on.
#[tactic(auto, using(crate::proofs::Room::room_test, crate::proofs::Room::room_none))]
pub fn has_room(room: usize, length: usize, at: usize) -> bool
    ensures { result ≡ leb (at + room) length }
{
    room <= length && at <= length - room
}

// A number in decimal and a byte behind it.
#[tactic(auto, using(crate::proofs::Lengths::decimal_fits))]
pub(crate) fn put_field(out: &mut [u8], at: usize, number: u32, end: u8) -> usize
    requires { at + field_limit ≤ length out.old }
    ensures wrote { Wrote out.old out.new at result (field_text number end) }
    ensures upper_bound { result ≤ at + field_limit }
{
    let behind = put_decimal(out, at, number);
    put_byte(out, behind, end)
}

// A number in so many hexadecimal digits and a byte behind them.
#[tactic(auto, using(crate::proofs::Stores::digits_length))]
pub(crate) fn put_hexadecimal(
    out: &mut [u8],
    at: usize,
    width: usize,
    number: u32,
    end: u8,
) -> usize
    requires { at + width < length out.old }
    ensures { Wrote out.old out.new at result (hexadecimal_text width number end) }
{
    let behind = put_digits(out, at, HEXADECIMAL, width, number);
    put_byte(out, behind, end)
}
