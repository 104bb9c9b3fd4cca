// A table and a shape of one format as those of another: the tests of the file, 24, 29, then the bytes. What they answer is a refusal, or the
// count of rows or entries.
ghost use Rattle.std.specs.Prelude.{◌≡◌, ◌≤◌};
ghost use Rattle.paper.specs.Format.{most_rows, row_bytes, entry_bytes, whole};
ghost use Rattle.paper.specs.Widths.{format_of, move_table, move_shape};
ghost use Rattle.paper.specs.Refusals.{counted};
ghost use Rattle.octets.specs.Served.{Served};
ghost use Rattle.widths.specs.Answers.{Moves};
ghost use Rattle.widths.specs.Tested.{move_tested};

use crate::records::{first_deep, move_records, moved_bytes};
use paper::refusal::Refusal;
use paper::{Format, Width};
use shapes::tests::examine_shape;
use tables::table::examine;

// Records of w bytes that pass the tests of their file. The length is tested before the first byte is written.
fn move_tested(
    b: &[u8],
    f: Format,
    g: Format,
    w: usize,
    count: usize,
    new: &mut [u8],
) -> Result<usize, Refusal>
    requires served { Served f × Served g × (entry_bytes f ≤ w) × (w ≤ row_bytes f) }
    requires count_value { (count ≡ whole w b.now) × (count ≤ most_rows) }
    ensures { Moves (move_tested f g w count b.now new.old) (counted result) new.new }
{
    if let Some(deep) = first_deep(b, w, count, g.levels) {
        return Err(Refusal::TooDeep(deep));
    }
    let from = octets::entry_bytes(f);
    let to = octets::entry_bytes(g);
    if new.len() < moved_bytes(w, from, to) * count {
        return Err(Refusal::NoRoom);
    }
    move_records(b, w, count, from, to, new);
    Ok(count)
}

// A table, after refusals 1 to 3.
pub fn move_table(table: &[u8], f: Format, g: Format, new: &mut [u8]) -> Result<usize, Refusal>
    requires { Served f × Served g }
    ensures { Moves (move_table f g table.now new.old) (counted result) new.new }
{
    let rows = examine(table, f)?;
    move_tested(table, f, g, octets::row_bytes(f), rows, new)
}

// A shape, after refusals 5 and 6.
pub fn move_shape(shape: &[u8], f: Format, g: Format, new: &mut [u8]) -> Result<usize, Refusal>
    requires { Served f × Served g }
    ensures { Moves (move_shape f g shape.now new.old) (counted result) new.new }
{
    let entries = examine_shape(shape, f)?;
    move_tested(shape, f, g, octets::entry_bytes(f), entries, new)
}

// A table of one width as one of another.
pub fn table_between(table: &[u8], from: Width, to: Width, new: &mut [u8]) -> Result<usize, Refusal>
    ensures { Moves (move_table (format_of from) (format_of to) table.now new.old) (counted result) new.new }
{
    move_table(table, paper::format_of(from), paper::format_of(to), new)
}

// A shape of one width as one of another.
pub fn shape_between(shape: &[u8], from: Width, to: Width, new: &mut [u8]) -> Result<usize, Refusal>
    ensures { Moves (move_shape (format_of from) (format_of to) shape.now new.old) (counted result) new.new }
{
    move_shape(shape, paper::format_of(from), paper::format_of(to), new)
}
