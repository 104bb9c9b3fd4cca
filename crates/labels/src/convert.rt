// The whole call: the tests of both files on the old range, 25, 26, 29, then the bytes.
ghost use Rattle.std.specs.Prelude.{◌≡◌, ◌<◌, eqb, length, take};
ghost use Rattle.paper.specs.Lists.{any};
ghost use Rattle.paper.specs.Labels.{old_range, pairs, pair_kept, bad_pair, convert};
ghost use Rattle.paper.specs.Refusals.{found};
ghost use Rattle.octets.specs.Served.{Served};
ghost use Rattle.labels.specs.Pairs.{pair_at};
ghost use Rattle.labels.specs.Records.{standing};
ghost use Rattle.labels.specs.Answers.{converted, Converts};
ghost use Rattle.labels.specs.Tested.{Counted, Tested};

use crate::pairs::{count_pairs, find, number_at};
use crate::records::{file_has, first_unlisted, put_records};
use paper::Format;
use paper::refusal::Refusal;
use shapes::tests::examine_shape;
use tables::table::examine;

// What converting counts: the rows and the entries.
#[derive(Clone, Copy, Drop)]
pub struct Converted {
    pub rows: usize,
    pub entries: usize,
}

// The same levels, with labels 1 to 999.
fn old_range(f: Format) -> Format
    ensures { result ≡ old_range f }
{
    Format {
        levels: f.levels,
        labels: 999,
    }
}

// Does a label stand in the table or in the shape?
fn occurs(table: &[u8], rows: usize, shape: &[u8], entries: usize, f: Format, x: usize) -> bool
    requires { Counted f table.now shape.now rows entries }
    ensures { result ≡ any (eqb x) (standing f table.now shape.now) }
{
    file_has(table, octets::row_bytes(f), rows, 2, 1, x)
        || file_has(shape, octets::entry_bytes(f), entries, 4, f.levels, x)
}

// Does pair i keep the rules after those before it? The new label of a half pair reads zero, which is too small.
fn pair_kept(
    table: &[u8],
    rows: usize,
    shape: &[u8],
    entries: usize,
    f: Format,
    list: &[u16],
    i: usize,
) -> bool
    requires { Counted f table.now shape.now rows entries × (i < length (pairs list.now)) }
    ensures { result ≡ pair_kept f (standing f table.now shape.now) (take i (pairs list.now)) (pair_at list.now i) }
{
    let old = number_at(list, 2 * i);
    let new = number_at(list, 2 * i + 1);
    if old <= f.labels {
        return false;
    }
    if 999 < old {
        return false;
    }
    if new < 1 {
        return false;
    }
    if f.labels < new {
        return false;
    }
    if occurs(table, rows, shape, entries, f, new) {
        return false;
    }
    find(list, i, 0, old).is_none() && find(list, i, 1, new).is_none()
}

// The first pair to break a rule.
fn first_bad(
    table: &[u8],
    rows: usize,
    shape: &[u8],
    entries: usize,
    f: Format,
    list: &[u16],
) -> Option<usize>
    requires { Counted f table.now shape.now rows entries }
    ensures { found result ≡ bad_pair f (standing f table.now shape.now) (pairs list.now) }
{
    (0..count_pairs(list)).position(|i| !pair_kept(table, rows, shape, entries, f, list, i))
}

// A table and a shape that pass their tests. Both lengths are tested before the first byte is written.
fn convert_tested(
    table: &[u8],
    rows: usize,
    shape: &[u8],
    entries: usize,
    f: Format,
    list: &[u16],
    new_table: &mut [u8],
    new_shape: &mut [u8],
) -> Result<Converted, Refusal>
    requires { Tested f table.now shape.now rows entries }
    ensures { let asked = convert f table.now shape.now list.now new_table.old new_shape.old in
        Converts asked (converted result) new_table.new new_shape.new }
{
    if let Some(pair) = first_bad(table, rows, shape, entries, f, list) {
        return Err(Refusal::BadPair(pair));
    }
    let w = octets::row_bytes(f);
    if let Some(row) = first_unlisted(table, w, rows, 2, 1, list, f) {
        return Err(Refusal::Unlisted(row));
    }
    let v = octets::entry_bytes(f);
    if let Some(entry) = first_unlisted(shape, v, entries, 4, f.levels, list, f) {
        return Err(Refusal::Unlisted(entry));
    }
    if new_table.len() < table.len() {
        return Err(Refusal::NoRoom);
    }
    if new_shape.len() < shape.len() {
        return Err(Refusal::NoRoom);
    }
    put_records(table, w, rows, 2, 1, list, new_table);
    put_records(shape, v, entries, 4, f.levels, list, new_shape);
    Ok(Converted { rows, entries })
}

// A table and its shape, after refusals 1 to 3, 5 and 6 on the old range.
pub fn convert(
    table: &[u8],
    shape: &[u8],
    list: &[u16],
    f: Format,
    new_table: &mut [u8],
    new_shape: &mut [u8],
) -> Result<Converted, Refusal>
    requires { Served f }
    ensures { let asked = convert f table.now shape.now list.now new_table.old new_shape.old in
        Converts asked (converted result) new_table.new new_shape.new }
{
    let rows = examine(table, old_range(f))?;
    let entries = examine_shape(shape, old_range(f))?;
    convert_tested(table, rows, shape, entries, f, list, new_table, new_shape)
}
