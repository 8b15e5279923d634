// Decimal numbers: no leading zero, at most 65,535, of any length without overflow.
ghost use Rattle.std.specs.Prelude.{◌≡◌};
ghost use Rattle.replay_lines.specs.Number.{read_digits, read_number, read_field};

use replay_text::{DIGIT_ZERO, SPACE};

// A number at the start of some bytes, and how many of them it takes.
#[derive(Clone, Copy)]
pub struct Number {
    pub value: u16,
    pub length: usize,
}

// The digits at the start of the text continue the number that the digit before them gave.
fn read_digits(first: u8, text: &[u8]) -> Option<Number>
    ensures { result ≡ read_digits first 1 text.now }
{
    let mut value = u16::from(first);
    for (index, byte) in text.iter().enumerate() {
        if !byte.is_ascii_digit() {
            return Some(Number {
                value,
                length: index + 1,
            });
        }
        value = value
            .checked_mul(10)?
            .checked_add(u16::from(*byte - DIGIT_ZERO))?;
    }
    Some(Number {
        value,
        length: text.len() + 1,
    })
}

// A number. A zero stands alone: what follows it is not of the number.
#[tactic(auto, unfolding(crate::specs::Number::read_number))]
fn read_number(text: &[u8]) -> Option<Number>
    ensures { result ≡ read_number text.now }
{
    let (first, rest) = text.split_first()?;
    if *first == DIGIT_ZERO {
        return Some(Number {
            value: 0,
            length: 1,
        });
    }
    if !first.is_ascii_digit() {
        return None;
    }
    read_digits(*first - DIGIT_ZERO, rest)
}

// A single space and a number.
#[tactic(auto, unfolding(crate::specs::Number::read_field))]
pub fn read_field(text: &[u8]) -> Option<Number>
    ensures { result ≡ read_field text.now }
{
    let (first, rest) = text.split_first()?;
    if *first != SPACE {
        return None;
    }
    let number = read_number(rest)?;
    Some(Number {
        length: number.length + 1,
        ..number
    })
}
