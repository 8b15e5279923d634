// Numbers as digits: a fixed number of them in any base up to 16, and decimal without a leading zero.
ghost use Rattle.std.specs.Prelude.{◌≡◌, ◌+◌, ◌≤◌, ◌<◌, length};
ghost use Rattle.replay_text.specs.Digits.{digit_byte, digits, places_of, decimal, decimal_limit};
ghost use Rattle.replay_text.specs.Written.{Wrote};

use crate::bytes::{DIGIT_ZERO, LOWER_A, put_byte};

const DECIMAL: u32 = 10;

#[tactic(auto, unfolding(crate::specs::Digits::digit_byte))]
fn digit_byte(digit: u32) -> u8
    requires { digit < 16 }
    ensures { result ≡ digit_byte digit }
{
    if digit < 10 {
        return DIGIT_ZERO + digit as u8;
    }
    LOWER_A + (digit - 10) as u8
}

// The last `width` digits of the number, the most significant first; written from the last one back.
pub(crate) fn put_digits(out: &mut [u8], at: usize, base: u32, width: usize, number: u32) -> usize
    requires { (0 < base) × (base ≤ 16) × (at + width ≤ length out.old) }
    ensures { Wrote out.old out.new at result (digits base width number) }
{
    let mut rest = number;
    for place in (0..width).rev() {
        out[at + place] = digit_byte(rest % base);
        rest /= base;
    }
    at + width
}

// How many decimal digits the number has. Small numbers, which are the most, are found first.
#[tactic(auto, using(laws::proofs::Choice::tests), unfolding(crate::specs::Digits::places_from, crate::specs::Digits::places_of))]
fn places(number: u32) -> usize
    ensures { result ≡ places_of number }
{
    match number {
        0..10 => 1,
        10..100 => 2,
        100..1_000 => 3,
        1_000..10_000 => 4,
        10_000..100_000 => 5,
        100_000..1_000_000 => 6,
        1_000_000..10_000_000 => 7,
        10_000_000..100_000_000 => 8,
        100_000_000..1_000_000_000 => 9,
        _ => 10,
    }
}

// Most numbers that are printed have one digit.
#[tactic(auto, using(crate::proofs::Lengths::places_fit, crate::proofs::Lengths::one_digit), unfolding(crate::specs::Digits::decimal))]
pub(crate) fn put_decimal(out: &mut [u8], at: usize, number: u32) -> usize
    requires { at + decimal_limit ≤ length out.old }
    ensures { Wrote out.old out.new at result (decimal number) }
{
    if number < DECIMAL {
        return put_byte(out, at, digit_byte(number));
    }
    put_digits(out, at, DECIMAL, places(number), number)
}
