// Kind and count of a lock word, by its low byte. Bits 0 and 1 and whether there is a count decide the kind, so that the low bytes 0 to 7, of which 0 to 3
// have no count and 4 to 7 count 1, stand for all in the table.
ghost use Rattle.std.specs.Prelude.{◌≡◌};
ghost use Rattle.lock_word.specs.Layout.{count_field};
ghost use Rattle.lock_word.specs.KindTable.{kind_of, kind_place};

use crate::layout::COUNT_UNIT;

#[derive(Clone, Copy)]
pub enum Kind {
    Flat,
    Reserved,
    Fat,
}

// The entries of the table.
const FLAT: Option<Kind> = Some(Kind::Flat);

const RESERVED: Option<Kind> = Some(Kind::Reserved);

const FAT: Option<Kind> = Some(Kind::Fat);
// no lock word
const NONE: Option<Kind> = None;

// The constant table: the kinds of the low bytes 0 to 7.
const KINDS: [Option<Kind>; 8] = [FLAT, FAT, RESERVED, NONE, FLAT, NONE, RESERVED, NONE];

// Which of those eight stands for a low byte.
#[tactic(auto, unfolding(crate::specs::KindTable::kind_place))]
fn kind_place(low: u8) -> u8
    ensures { result ≡ kind_place low }
{
    if low < COUNT_UNIT {
        return low;
    }
    low % COUNT_UNIT + COUNT_UNIT
}

#[tactic(auto, using(crate::proofs::KindTable::place_inside), unfolding(laws::specs::Sequence::tabulate, crate::specs::KindTable::kind_of))]
pub fn kind_of(low: u8) -> Option<Kind>
    ensures { result ≡ kind_of low }
{
    let place = usize::from(kind_place(low));
    KINDS[place]
}

// Bits 2 to 7. Only of flat and reserved words are they a count, and only there are they looked at.
pub fn count_field(low: u8) -> u8
    ensures { result ≡ count_field low }
{
    low / COUNT_UNIT
}
