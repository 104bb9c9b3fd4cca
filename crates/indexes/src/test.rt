// The lists that are lent with a table, held to it.
ghost use Rattle.std.specs.Prelude.{◌≡◌, length};
ghost use Rattle.paper.specs.Format.{most_rows};
ghost use Rattle.octets.specs.Served.{Served};
ghost use Rattle.closest.specs.Runs.{Rows};
ghost use Rattle.indexes.specs.Last.{Shallow};
ghost use Rattle.indexes.specs.Tested.{Holds, ReadsIndexed};
ghost use Rattle.indexes.specs.Wrong.{earlier};

use crate::last::wrong_last;
use crate::next::wrong_next;
use closest::rows::{RowsRead, read_rows};
use paper::Format;
use paper::refusal::Refusal;

// The earlier of two rows, where there is one.
fn earlier(a: Option<usize>, b: Option<usize>) -> Option<usize>
    ensures { result ≡ earlier a b }
{
    match (a, b) {
        (Some(i), Some(j)) => Some(i.min(j)),
        _ => a.or(b),
    }
}

// 14 and 15: every place of a row is compared, in two walks.
fn test_lists(
    levels: &[u8],
    types: &[u8],
    rows: usize,
    last: &[u16],
    next: &[u16],
) -> Result<(), Refusal>
    requires { Rows rows levels.now types.now × Shallow rows levels.now }
    ensures { Holds rows levels.now types.now last.now next.now result }
{
    if last.len() < rows {
        return Err(Refusal::IndexTooShort);
    }
    if next.len() < rows {
        return Err(Refusal::IndexTooShort);
    }
    let in_last = wrong_last(levels, rows, last);
    let in_next = wrong_next(types, rows, next);
    match earlier(in_last, in_next) {
        Some(wrong) => Err(Refusal::WrongIndex(wrong)),
        None => Ok(()),
    }
}

// Refusals 1 to 4, then 14 and 15, or the rows, as reading them without an index finds them.
pub fn read_indexed(
    table: &[u8],
    f: Format,
    last: &[u16],
    next: &[u16],
    levels: &mut [u8],
    types: &mut [u8],
) -> Result<RowsRead, Refusal>
    requires { Served f × (length levels.old ≡ most_rows) × (length types.old ≡ most_rows) }
    ensures { ReadsIndexed f table.now last.now next.now result levels.new types.new }
{
    let read = read_rows(table, f, levels, types)?;
    test_lists(levels, types, read.rows, last, next)?;
    Ok(read)
}
