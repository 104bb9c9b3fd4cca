// Summarising a reshape: what each entry would show, with nothing written.
ghost use Rattle.std.specs.Prelude.{◌≡◌};
ghost use Rattle.paper.specs.Calls.{summarise};
ghost use Rattle.paper.specs.Index.{summarise_with};
ghost use Rattle.octets.specs.Served.{Served};
ghost use Rattle.closest.specs.Rows.{SomeRows};
ghost use Rattle.reshaping.specs.Reshaped.{summarised};
ghost use Rattle.reshaping.specs.Rows.{SummarisesRows};

use crate::figures::figures_of;
use closest::rows::{RowsRead, read_rows};
use indexes::test::read_indexed;
use lines::count::count_lines;
use paper::Format;
use paper::refusal::Refusal;
use shapes::work::prepare;

// For each of 16 entries its lines, the source rows of its type, copies, and the different source rows that appear in its lines. Copies are
// lines less different rows. Unused entries hold zeros.
#[derive(Clone, Copy, Drop)]
pub struct Summary {
    pub lines: [usize; 16],
    pub rows: [usize; 16],
    pub copies: [usize; 16],
    pub different: [usize; 16],
}

// Refusals 5 to 8, with room for 4,096 lines, or the figures, for the rows of a table that were read. No line is walked to count it.
pub fn summarise_rows(
    shape: &[u8],
    f: Format,
    read: RowsRead,
    levels: &[u8],
    types: &[u8],
) -> Result<Summary, Refusal>
    requires { Served f × SomeRows f read levels.now types.now }
    ensures { SummarisesRows f shape.now read levels.now types.now result }
{
    let mut meetings = [0u8; 1024];
    let mut ways = [0u8; 128];
    let prepared = prepare(shape, f, read, levels, types, &mut meetings, &mut ways)?;
    let rows = prepared.rows;
    let wanted = prepared.shape;
    let mut runs = [0u16; 9216];
    let mut shows = [0u16; 16384];
    let tally = count_lines(levels, types, rows, wanted, &mut runs, &mut shows);
    let total = tally.total;
    if 4096 < total {
        return Err(Refusal::TooManyLines);
    }
    let lines = tally.lines;
    let entry_types = wanted.types;
    let entries = wanted.entries;
    Ok(figures_of(types, rows, entry_types, entries, &shows, lines))
}

// Refusals 1 to 4, or the summary of the rows that were read.
pub fn summarise(table: &[u8], shape: &[u8], f: Format) -> Result<Summary, Refusal>
    requires { Served f }
    ensures { summarised result ≡ summarise f table.now shape.now }
{
    let mut levels = [0u8; 1024];
    let mut types = [0u8; 1024];
    let read = read_rows(table, f, &mut levels, &mut types)?;
    summarise_rows(shape, f, read, &levels, &types)
}

// Refusals 1 to 4, then 14 and 15 of the lists that are lent as the table's index, or the summary of the rows that were read.
pub fn summarise_with_index(
    table: &[u8],
    shape: &[u8],
    f: Format,
    last: &[u16],
    next: &[u16],
) -> Result<Summary, Refusal>
    requires { Served f }
    ensures { summarised result ≡ summarise_with f table.now shape.now last.now next.now }
{
    let mut levels = [0u8; 1024];
    let mut types = [0u8; 1024];
    let read = read_indexed(table, f, last, next, &mut levels, &mut types)?;
    summarise_rows(shape, f, read, &levels, &types)
}
