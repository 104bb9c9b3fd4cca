// Reshaping a table to a shape: the new table and its source list, into what was lent.
ghost use Rattle.std.specs.Prelude.{◌≡◌, ◌/◌, ◌≤◌, min, length};
ghost use Rattle.paper.specs.Format.{most_lines, row_bytes};
ghost use Rattle.octets.specs.Served.{Served};
ghost use Rattle.closest.specs.Runs.{NextRows};
ghost use Rattle.closest.specs.Rows.{RowsIn};
ghost use Rattle.reshaping.specs.Reshaped.{reshaped, Reshapes, ReshapesWith};

use closest::rows::{RowsRead, read_rows};
use closest::runs::next_rows;
use indexes::test::read_indexed;
use lines::count::count_lines;
use lines::table::write_table;
use paper::Format;
use paper::refusal::Refusal;
use shapes::work::prepare;

// The room for lines in so many bytes and so many places of a source list.
fn room_in(bytes: usize, f: Format, places: usize) -> usize
    requires { Served f }
    ensures { result ≡ min (bytes / row_bytes f) (min places most_lines) }
{
    (bytes / octets::row_bytes(f)).min(places.min(4096))
}

// Refusals 5 to 8, or the lines of the new table, for the rows of a table that were read and the next row of each row's type. They are written
// to the front of what was lent; what lies past them stays as it was. The lines are counted before the first is written.
pub fn reshape_rows(
    table: &[u8],
    shape: &[u8],
    f: Format,
    read: RowsRead,
    levels: &[u8],
    types: &[u8],
    next: &[u16],
    new: &mut [u8],
    sources: &mut [u32],
) -> Result<usize, Refusal>
    requires served { Served f × RowsIn f table.now read levels.now types.now }
    requires next_rows { NextRows read.rows types.now next.now × (read.rows ≤ length next.now) }
    ensures { Reshapes f table.now shape.now new.old sources.old (reshaped result) new.new sources.new }
{
    let mut meetings = [0u8; 1024];
    let mut ways = [0u8; 128];
    let prepared = prepare(shape, f, read, levels, types, &mut meetings, &mut ways)?;
    let rows = prepared.rows;
    let wanted = prepared.shape;
    let mut runs = [0u16; 9216];
    let mut lists = [0u16; 16384];
    let tally = count_lines(levels, types, rows, wanted, &mut runs, &mut lists);
    let total = tally.total;
    let room = room_in(new.len(), f, sources.len());
    if room < total {
        return Err(Refusal::TooManyLines);
    }
    let lines = write_table(
        table, f, rows, types, &runs, next, wanted, &mut lists, new, sources,
    );
    Ok(lines)
}

// Refusals 1 to 4, or the reshape of the rows that were read. A refused call changes nothing.
//
// `Reshapes` has the buyer's demand among its parts: where the call is accepted and the verdict on the same table and shape is 0, the new
// table and the source list that it leaves keep the links between records. None is missing and none is made up. Where the second answer is
// yes, none is made up whatever the verdict. Where the verdict is 1, the row that it names is in no line of the entry that it names. And
// where the call is accepted with at most 1,024 lines, the new table is a sound source, so that it can be reshaped again with no test in
// between.
pub fn reshape(
    table: &[u8],
    shape: &[u8],
    f: Format,
    new: &mut [u8],
    sources: &mut [u32],
) -> Result<usize, Refusal>
    requires { Served f }
    ensures { Reshapes f table.now shape.now new.old sources.old (reshaped result) new.new sources.new }
{
    let mut levels = [0u8; 1024];
    let mut types = [0u8; 1024];
    let read = read_rows(table, f, &mut levels, &mut types)?;
    let rows = read.rows;
    let mut next = [65535u16; 1024];
    next_rows(&types, rows, &mut next);
    reshape_rows(table, shape, f, read, &levels, &types, &next, new, sources)
}

// Refusals 1 to 4, then 14 and 15 of the lists that are lent as the table's index, or the reshape of the rows that were read, with the lent next
// rows. A refused call changes nothing, and where the index is this table's, the promise is that of the call without one.
pub fn reshape_with_index(
    table: &[u8],
    shape: &[u8],
    f: Format,
    last: &[u16],
    next: &[u16],
    new: &mut [u8],
    sources: &mut [u32],
) -> Result<usize, Refusal>
    requires { Served f }
    ensures { let promised = ReshapesWith f table.now shape.now last.now next.now in
        promised new.old sources.old (reshaped result) new.new sources.new }
{
    let mut levels = [0u8; 1024];
    let mut types = [0u8; 1024];
    let read = read_indexed(table, f, last, next, &mut levels, &mut types)?;
    reshape_rows(table, shape, f, read, &levels, &types, next, new, sources)
}
