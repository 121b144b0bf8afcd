// Rows of numbers that rise, some of them empty.

ghost use Rattle.std.specs.Prelude.{◌≡◌, ℕ, drop, IsTrue};
ghost use Rattle.flow_numbered.specs.Numbered.{next_above};
ghost use Rattle.flow_numbered.specs.Rows.{things_in, place_in, RowsRise, Rise, IsAt};

/// A number, and the thing that has it, if it is still there.
#[derive(Drop)]
pub(crate) struct Row<V> {
    pub(crate) number: u64,
    pub(crate) value: Option<V>,
}

// Whether the row at a place has a number.
fn is_at<V>(rows: &[Row<V>], place: usize, number: u64) -> bool
    ensures { IsTrue result → IsAt rows.now number place }
{
    match rows.get(place) {
        Some(row) => row.number == number,
        None => false,
    }
}

// Where a number stands if none is missing between the first one and it.
fn without_gaps<V>(rows: &[Row<V>], number: u64) -> usize {
    match rows.first() {
        Some(row) => number.saturating_sub(row.number) as usize,
        None => 0,
    }
}

/// The place of the row with a number, if there is one. It is looked for near another place first, and then where it stands
/// if no number is missing.
pub(crate) fn place_of<V>(rows: &[Row<V>], near: usize, number: u64) -> Option<usize>
    requires { Rise rows.now }
    ensures { result ≡ place_in rows.now number }
{
    if is_at(rows, near, number) {
        return Some(near);
    }
    let place = without_gaps(rows, number);
    if is_at(rows, place, number) {
        return Some(place);
    }
    search(rows, number)
}

// Where a number stands among so many rows, were those from the first number on up to the last one, left out, spread evenly.
fn spread(number: u64, first: u64, last: u64, rows: usize) -> usize {
    let part = number.saturating_sub(first).saturating_mul(rows as u64);
    let whole = last.saturating_sub(first).max(1);
    (part / whole) as usize
}

// The first and the last number of rows.
fn bounds<V>(rows: &[Row<V>]) -> (u64, u64) {
    match (rows.first(), rows.last()) {
        (Some(first), Some(last)) => (first.number, last.number.saturating_add(1)),
        _ => (0, 0),
    }
}

// The place of the row with a number. Places at half of what is left take turns with those where the number would stand,
// were the numbers spread evenly.
fn search<V>(rows: &[Row<V>], number: u64) -> Option<usize>
    requires { Rise rows.now }
    ensures { result ≡ place_in rows.now number }
{
    let (mut first, mut last) = bounds(rows);
    let mut low = 0;
    let mut high = rows.len();
    let mut even = true;
    while low < high {
        let left = high - low;
        let step = if even {
            spread(number, first, last, left)
        } else {
            left / 2
        };
        even = !even;
        let middle = low + step.min(left - 1);
        let found = rows[middle].number;
        if found == number {
            return Some(middle);
        }
        if found < number {
            low = middle + 1;
            first = found;
        } else {
            high = middle;
            last = found;
        }
    }
    None
}

/// The first number above this one that a thing has, from a place on.
pub(crate) fn live_from<V>(rows: &[Row<V>], from: usize, number: u64) -> Option<u64>
    ensures { result ≡ next_above (things_in (drop from rows.now)) number }
{
    for place in from..rows.len() {
        let row = &rows[place];
        if row.number > number && row.value.is_some() {
            return Some(row.number);
        }
    }
    None
}

/// Takes out the empty rows, of which so many are counted, where they are more than a quarter of all. Gives the count then.
pub(crate) fn tidy<V: Drop>(rows: &mut Vec<Row<V>>, empty: usize) -> usize
    ensures same { things_in rows.new.items ≡ things_in rows.old.items }
    ensures rise { (low most : ℕ) → RowsRise low rows.old.items most
        → RowsRise low rows.new.items most }
{
    if empty <= rows.len() / 4 {
        return empty;
    }
    rows.retain(|row| row.value.is_some());
    0
}
