// The rows of a table, read once: refusals 1 to 4, or what the calls that walk rows need of them. Nothing here depends on a shape, so that
// what is read may be tested by itself before a shape is looked at.
ghost use Rattle.std.specs.Prelude.{◌≡◌, length};
ghost use Rattle.paper.specs.Format.{most_rows};
ghost use Rattle.octets.specs.Served.{Served};
ghost use Rattle.closest.specs.Rows.{ReadRows};

use crate::meet::row_levels;
use paper::Format;
use paper::refusal::Refusal;
use tables::table::examine;
use types::list::list_types;

// The number of rows and the types: how many, and of each its parent type (64 for none) and last label. It is small enough to go by value: it is
// copied once, into the answer.
#[derive(Clone, Copy, Drop)]
pub struct RowsRead {
    pub rows: usize,
    pub count: usize,
    pub parents: [u8; 64],
    pub labels: [u16; 64],
}

// Refusals 1 to 4 in their order, or the rows: each row's level and type number are found in the lent lists.
pub fn read_rows(
    table: &[u8],
    f: Format,
    levels: &mut [u8],
    types: &mut [u8],
) -> Result<RowsRead, Refusal>
    requires { Served f × (length levels.old ≡ most_rows) × (length types.old ≡ most_rows) }
    ensures { ReadRows f table.now result levels.new types.new }
{
    let rows = examine(table, f)?;
    let listed = list_types(table, f, rows, types)?;
    row_levels(table, f, rows, levels);
    let parents = listed.parents;
    let labels = listed.labels;
    Ok(RowsRead {
        rows,
        count: listed.count,
        parents,
        labels,
    })
}
