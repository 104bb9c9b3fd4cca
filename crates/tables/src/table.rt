// A whole table: the first row that breaks a rule, examining, and look-up.
ghost use Rattle.std.specs.Prelude.{◌≡◌, [], ◌*◌, ◌≤◌, ◌<◌, IfSome, length};
ghost use Rattle.paper.specs.Format.{row_bytes, whole, byte};
ghost use Rattle.paper.specs.Tables as Tables;
ghost use Rattle.paper.specs.Tables.{row_of, dewey, row_kept, bad_row};
ghost use Rattle.paper.specs.Calls.{examine, look_up};
ghost use Rattle.octets.specs.Served.{Served};
ghost use Rattle.paper.specs.Refusals.{found, number_in, place_in};
ghost use Rattle.tables.specs.Reply.{examined, HandsBack};

use crate::row::{component, fields_kept, follows};
use paper::Format;
use paper::refusal::Refusal;

// Does a table's first row keep the rules?
fn first_kept(row: &[u8], f: Format) -> bool
    requires { (length row.now ≡ row_bytes f) × (f.levels ≤ 255) }
    ensures { result ≡ row_kept f [] (row_of f row.now) }
{
    if !fields_kept(row, f) {
        return false;
    }
    if octets::wide(row[0]) != 1 {
        return false;
    }
    component(row, f, 0) == 1
}

// Does a later row keep the rules after the row before it?
fn row_kept(before: &[u8], row: &[u8], f: Format) -> bool
    requires { (length before.now ≡ row_bytes f) × (length row.now ≡ row_bytes f) × (f.levels ≤ 255) × (byte before.now 0 ≤ f.levels) }
    ensures { result ≡ row_kept f (dewey (row_of f before.now)) (row_of f row.now) }
{
    if !fields_kept(row, f) {
        return false;
    }
    follows(before, row, f)
}

// The first row that breaks a rule.
pub fn bad_row(table: &[u8], f: Format, rows: usize) -> Option<usize>
    requires { (rows ≡ whole (row_bytes f) table.now) × (f.levels ≤ 255) }
    ensures { (found result ≡ bad_row f (Tables.rows f table.now)) × IfSome result (λ i. i < rows) }
{
    let w = octets::row_bytes(f);
    if rows == 0 {
        return None;
    }
    if !first_kept(octets::record(table, w, 0), f) {
        return Some(0);
    }
    for i in 1..rows {
        if !row_kept(
            octets::record(table, w, i - 1),
            octets::record(table, w, i),
            f,
        ) {
            return Some(i);
        }
    }
    None
}

// Refusals 1 to 3, or the number of rows.
pub fn examine(table: &[u8], f: Format) -> Result<usize, Refusal>
    requires { Served f }
    ensures { examined result ≡ examine f table.now }
{
    let w = octets::row_bytes(f);
    if 1024 * w < table.len() {
        return Err(Refusal::TooManyRows);
    }
    if table.len() % w != 0 {
        return Err(Refusal::HalfRow);
    }
    let rows = table.len() / w;
    match bad_row(table, f, rows) {
        Some(bad) => Err(Refusal::BadRow(bad)),
        None => Ok(rows),
    }
}

// Why a look-up is refused, if it is.
pub fn look_up_refusal(table: &[u8], f: Format, i: usize) -> Result<(), Refusal>
    requires { Served f }
    ensures { (number_in result ≡ (look_up f table.now i).number) × (place_in result ≡ (look_up f table.now i).place) }
{
    let rows = examine(table, f)?;
    if rows <= i {
        return Err(Refusal::NoSuchRow(i));
    }
    Ok(())
}

// Row i's own bytes of the caller's table, or an empty part.
pub fn look_up(table: &[u8], f: Format, i: usize) -> &[u8]
    requires { Served f }
    ensures { HandsBack f table.entry i result }
{
    let none = 0;
    let Ok(rows) = examine(table, f) else {
        return &table[none..none];
    };
    if i < rows {
        return octets::record(table, octets::row_bytes(f), i);
    }
    &table[none..none]
}
