// The rows of an entry's type: which of them its lines show, and what their values add up to.
ghost use Rattle.std.specs.Prelude.{◌≡◌, ◌+◌, ◌*◌, ◌≤◌, ◌<◌, ◌∷◌, pos, length, take, drop};
ghost use Rattle.paper.specs.Format.{most_rows, most_entries, row_bytes, entry_bytes};
ghost use Rattle.paper.specs.Widths.{format_of};
ghost use Rattle.totals.specs.Told.{summed};
ghost use Rattle.totals.specs.Rows.{Marks, AllMarked, RowsOf, value_at, is_marked, added_up};

use crate::TapeSums;
use crate::value::{lies_within, value_at, wide32};
use silmezga::{Refusal, Width};

// The bytes of a row.
pub fn row_bytes(width: Width) -> usize
    ensures { result ≡ row_bytes (format_of width) }
{
    match width {
        Width::Six => 24,
        Width::Eight => 28,
    }
}

// The bytes of an entry, which are those before the value of a row.
pub fn entry_bytes(width: Width) -> usize
    ensures { result ≡ entry_bytes (format_of width) }
{
    match width {
        Width::Six => 16,
        Width::Eight => 20,
    }
}

// Puts the shape of one entry: an entry of the shape, alone on level 1.
pub fn put_alone(shape: &[u8], bytes: usize, entry: usize, alone: &mut [u8])
    requires { (bytes * entry + bytes ≤ length shape.now) × (1 ≤ bytes) × (bytes ≤ length alone.old) }
    ensures { take bytes alone.new ≡ 1 ∷ drop 1 (take bytes (drop (bytes * entry) shape.now)) }
{
    let first = bytes * entry;
    alone[..bytes].copy_from_slice(&shape[first..first + bytes]);
    alone[0] = 1;
}

// Marks the rows that the lines of an entry show, by the source list: a row is marked once, however many lines show it.
pub fn mark_shown(sources: &[u32], lines: usize, entry: usize, marks: &mut [u8])
    requires { (lines ≤ length sources.now) × (entry < most_entries) × (length marks.old ≡ most_rows) }
    ensures { Marks entry (take lines sources.now) marks.old marks.new }
{
    let first = 65536 * entry;
    for place in &sources[..lines] {
        let x = wide32(*place);
        if first <= x && x - first < 1024 {
            marks[x - first] = 1;
        }
    }
}

// Marks every row.
pub fn mark_all(marks: &mut [u8])
    ensures { AllMarked marks.old marks.new }
{
    marks.fill(1);
}

// Adds up the values of rows, those marked and the others, up to the first value that is out of range. A row has so many bytes, and so many
// stand before its value.
pub fn add_up(
    table: &[u8],
    bytes: usize,
    before: usize,
    rows: &[u32],
    count: usize,
    marks: &[u8],
) -> Result<TapeSums, Refusal>
    requires count_in_bounds { (count ≤ length rows.now) × (count ≤ most_rows) × (length marks.now ≡ most_rows) × (before + 8 ≤ bytes) × (bytes ≤ 255) }
    requires rows_of { RowsOf bytes table.now (take count rows.now) }
    ensures { let value = value_at bytes before table.now in
        summed result ≡ added_up value (is_marked marks.now) (take count rows.now) (pos 0) (pos 0) }
{
    let mut shown = 0i64;
    let mut unshown = 0i64;
    for number in &rows[..count] {
        let row = wide32(*number);
        let value = value_at(table, bytes * row + before);
        if !lies_within(1000000000000, value) {
            return Err(Refusal::ValueOutOfRange(row));
        }
        if marks[row] == 1 {
            shown += value;
        } else {
            unshown += value;
        }
    }
    Ok(TapeSums { shown, unshown })
}
