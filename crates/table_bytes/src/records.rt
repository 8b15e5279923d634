// Records that lie one behind the other in bytes, all of one size, and what is done with any of them.
ghost use Rattle.std.specs.Prelude.{◌≡◌, ℕ, ◌+◌, ◌-◌, ◌*◌, ◌≤◌, ◌<◌, Bool, List, eqb, ltb, length, get_or};
ghost use Rattle.laws.specs.Choice.{pick};
ghost use Rattle.laws.specs.Every.{all_below};
ghost use Rattle.laws.specs.Sequence.{tabulate};
ghost use Rattle.table_bytes.specs.Rows.{Field, size, Numbers, numbers_in, record_bytes, joined, overwritten};
ghost use Rattle.table_bytes.specs.Reading.{byte_at};

// A record that has `SIZE` bytes.
pub(crate) trait Stored<const SIZE: usize>: Copy {
    ghost layout: { List (Field Self) };

    // one with every field 0
    ghost empty: { Self };

    // the record that the numbers of its fields say, and whether they are those of a record
    ghost said: { Numbers layout → Self };

    ghost known: { Numbers layout → Bool };

    fn from_bytes(stored: &[u8; SIZE]) -> Self
        ensures { result ≡ said (numbers_in layout (byte_at stored.now)) };

    fn is_known(stored: &[u8; SIZE]) -> bool
        ensures { result ≡ known (numbers_in layout (byte_at stored.now)) };

    fn to_bytes(self) -> [u8; SIZE]
        ensures { result ≡ record_bytes layout self };

    ghost sized: { size layout ≡ SIZE };
}

// The place of a record by its number, which counts from 1, where there are so many.
pub(crate) fn place_of(number: u8, count: u8) -> Option<usize>
    ensures { result ≡ pick (eqb number 0) None (pick (ltb count number) None (Some (number - 1))) }
{
    if number == 0 || count < number {
        return None;
    }
    Some(usize::from(number) - 1)
}

// The bytes of the record at a place.
fn stored_at<const SIZE: usize>(bytes: &[u8], start: usize, place: usize) -> &[u8; SIZE]
    requires { start + place * SIZE + SIZE ≤ length bytes.now }
    ensures { (i : ℕ) → i < SIZE → byte_at result.now i ≡ byte_at bytes.now (start + place * SIZE + i) }
{
    let at = start + place * SIZE;
    bytes[at..].first_chunk().unwrap()
}

// The record at a place.
pub(crate) fn record_at<T: Stored<SIZE>, const SIZE: usize>(
    bytes: &[u8],
    start: usize,
    place: usize,
) -> T
    requires { start + place * SIZE + SIZE ≤ length bytes.now }
    ensures { result ≡ T.said (numbers_in T.layout (λ i. byte_at bytes.now (start + place * size T.layout + i))) }
{
    T::from_bytes(stored_at(bytes, start, place))
}

// Reads as many records as there is room for.
pub(crate) fn read_records<T: Stored<SIZE>, const SIZE: usize>(
    bytes: &[u8],
    start: usize,
    records: &mut [T],
)
    requires { start + length records.old * SIZE ≤ length bytes.now }
    ensures { records.new ≡ tabulate (length records.old) (λ place. T.said (numbers_in T.layout (λ i. byte_at bytes.now (start + place * size T.layout + i)))) }
{
    for (place, record) in records.iter_mut().enumerate() {
        *record = record_at(bytes, start, place);
    }
}

// Whether each of so many records is one that there is, from the last to the first. Of `(0..count).all(..)` it stayed open that what the iterator goes
// through is `all_below`.
pub(crate) fn all_known<T: Stored<SIZE>, const SIZE: usize>(
    bytes: &[u8],
    start: usize,
    count: usize,
) -> bool
    requires { start + count * SIZE ≤ length bytes.now }
    ensures { result ≡ all_below count (λ place. T.known (numbers_in T.layout (λ i. byte_at bytes.now (start + place * size T.layout + i)))) }
{
    for place in (0..count).rev() {
        if !T::is_known(stored_at(bytes, start, place)) {
            return false;
        }
    }
    true
}

// Stores the record over what stands at a place.
pub(crate) fn put_record<T: Stored<SIZE>, const SIZE: usize>(
    bytes: &mut [u8],
    start: usize,
    place: usize,
    stored: T,
)
    requires { start + place * SIZE + SIZE ≤ length bytes.old }
    ensures { bytes.new ≡ overwritten (start + place * size T.layout) (record_bytes T.layout stored) bytes.old }
{
    let at = start + place * SIZE;
    bytes[at..at + SIZE].copy_from_slice(&stored.to_bytes());
}

// Stores the records one behind the other.
pub(crate) fn put_records<T: Stored<SIZE>, const SIZE: usize>(
    bytes: &mut [u8],
    start: usize,
    records: &[T],
)
    requires { start + length records.now * SIZE ≤ length bytes.old }
    ensures { bytes.new ≡ overwritten start (joined (length records.now) (λ place. record_bytes T.layout (get_or records.now place T.empty))) bytes.old }
{
    for (place, record) in records.iter().enumerate() {
        put_record(bytes, start, place, *record);
    }
}
