// The report, row by row.
ghost use Rattle.std.specs.Prelude.{◌≡◌, ◌+◌, ◌*◌, ◌≤◌, length};
ghost use Rattle.replay_text.specs.Row.{row_room, report_room};
ghost use Rattle.replay_text.specs.Written.{Wrote, Put};
ghost use Rattle.report_tally.specs.Rows.{row_count, rows_text, report_text};

use crate::tally::Tally;
use lock_table::OBJECTS;
use replay_text::{Figures, REPORT_ROOM, has_room, put_row};

// Up to the largest number, and no further than there are objects in a table.
#[tactic(auto, unfolding(crate::specs::Rows::row_count))]
fn row_count(largest: u8) -> u8
    ensures { result ≡ row_count largest }
{
    largest.min(OBJECTS)
}

// The rows of the objects, up to the largest number that a good header gave.
fn put_rows(out: &mut [u8], at: usize, largest: u8, objects: [Figures; 64]) -> usize
    requires { at + 64 * row_room ≤ length out.old }
    ensures wrote { Wrote out.old out.new at result (rows_text objects (row_count largest)) }
    ensures upper_bound { result ≤ at + 64 * row_room }
{
    let mut end = at;
    for place in 0..row_count(largest) {
        end = put_row(out, end, place + 1, objects[usize::from(place)]);
    }
    end
}

// All of the report.
fn put_report_text(out: &mut [u8], at: usize, tally: Tally) -> usize
    requires { at + report_room ≤ length out.old }
    ensures { Wrote out.old out.new at result (report_text tally) }
{
    let end = put_rows(out, at, tally.largest, tally.objects);
    put_row(out, end, 0, tally.all)
}

// The report, where there is room for any.
#[tactic(auto, using(replay_text::proofs::Room::put_written, replay_text::proofs::Room::put_refused))]
pub fn put_report(out: &mut [u8], at: usize, tally: Tally) -> usize
    ensures { Put report_room out.old out.new at result (report_text tally) }
{
    if !has_room(REPORT_ROOM, out.len(), at) {
        return at;
    }
    put_report_text(out, at, tally)
}
