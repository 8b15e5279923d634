// The rows that the report program prints.
ghost use Rattle.std.specs.Prelude.{◌≡◌, ◌+◌, ◌≤◌, length};
ghost use Rattle.replay_text.specs.Row.{figures_sum, share, remainder, FieldsBy, figure_fields, share_fields, remainder_fields, five_limit, five_text, row_text, row_room};
ghost use Rattle.replay_text.specs.Written.{Wrote, Put};

use crate::bytes::{NEWLINE, SPACE};
use crate::fields::{has_room, put_field};

// The enters finished in each of the five ways, in the order in which they are printed.
#[derive(Clone, Copy)]
pub struct Figures {
    pub anonymous: u16,
    pub reserved: u16,
    pub free: u16,
    pub nested: u16,
    pub monitor: u16,
}

// What is printed of each of the five: its figure, its share or its remainder. `Figures` is a public type that definitions of the report name, so the two
// are no instances of one generic type.
#[derive(Clone, Copy)]
struct FiveFields {
    anonymous: u32,
    reserved: u32,
    free: u32,
    nested: u32,
    monitor: u32,
}

// No row is longer.
pub const ROW_ROOM: usize = 176;

// No report is longer: a row for each of 64 objects, and one for all.
pub const REPORT_ROOM: usize = 65 * ROW_ROOM;

// Shares are in ten-thousandths.
const WHOLE_SHARE: u32 = 10000;

fn figures_sum(figures: Figures) -> u32
    ensures { result ≡ figures_sum figures }
{
    u32::from(figures.anonymous)
        + u32::from(figures.reserved)
        + u32::from(figures.free)
        + u32::from(figures.nested)
        + u32::from(figures.monitor)
}

#[tactic(auto, unfolding(crate::specs::Row::share))]
fn share(figure: u16, sum: u32) -> u32
    ensures { result ≡ share figure sum }
{
    (WHOLE_SHARE * u32::from(figure))
        .checked_div(sum)
        .unwrap_or(0)
}

#[tactic(auto, unfolding(crate::specs::Row::remainder))]
fn remainder(figure: u16, sum: u32) -> u32
    ensures { result ≡ remainder figure sum }
{
    (WHOLE_SHARE * u32::from(figure))
        .checked_rem(sum)
        .unwrap_or(0)
}

// A field for each of the five.
fn each_of<F: Fn(u16) -> u32>(figures: Figures, field: F) -> FiveFields
    requires { F.IsAlwaysCallable field }
    ensures { FieldsBy (F.post field) figures result }
{
    FiveFields {
        anonymous: field(figures.anonymous),
        reserved: field(figures.reserved),
        free: field(figures.free),
        nested: field(figures.nested),
        monitor: field(figures.monitor),
    }
}

fn figure_fields(figures: Figures) -> FiveFields
    ensures { result ≡ figure_fields figures }
{
    each_of(figures, |figure| u32::from(figure))
}

fn share_fields(figures: Figures, sum: u32) -> FiveFields
    ensures { result ≡ share_fields figures sum }
{
    each_of(figures, |figure| share(figure, sum))
}

fn remainder_fields(figures: Figures, sum: u32) -> FiveFields
    ensures { result ≡ remainder_fields figures sum }
{
    each_of(figures, |figure| remainder(figure, sum))
}

// Five fields, and a byte behind the last.
fn put_five(out: &mut [u8], at: usize, five: FiveFields, end: u8) -> usize
    requires { at + five_limit ≤ length out.old }
    ensures wrote { Wrote out.old out.new at result (five_text five end) }
    ensures upper_bound { result ≤ at + five_limit }
{
    let second = put_field(out, at, five.anonymous, SPACE);
    let third = put_field(out, second, five.reserved, SPACE);
    let fourth = put_field(out, third, five.free, SPACE);
    let fifth = put_field(out, fourth, five.nested, SPACE);
    put_field(out, fifth, five.monitor, end)
}

// All of a row.
fn put_row_text(out: &mut [u8], at: usize, number: u8, figures: Figures) -> usize
    requires { at + row_room ≤ length out.old }
    ensures { Wrote out.old out.new at result (row_text number figures) }
{
    let sum = figures_sum(figures);
    let first = put_field(out, at, u32::from(number), SPACE);
    let shares = put_five(out, first, figure_fields(figures), SPACE);
    let remainders = put_five(out, shares, share_fields(figures, sum), SPACE);
    put_five(out, remainders, remainder_fields(figures, sum), NEWLINE)
}

// The row of a number, for an object or for all.
#[tactic(auto, using(crate::proofs::Room::put_written, crate::proofs::Room::put_refused))]
pub fn put_row(out: &mut [u8], at: usize, number: u8, figures: Figures) -> usize
    ensures { Put row_room out.old out.new at result (row_text number figures) }
{
    if !has_room(ROW_ROOM, out.len(), at) {
        return at;
    }
    put_row_text(out, at, number, figures)
}
