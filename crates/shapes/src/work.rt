// A table and a shape as judging, reshaping and summarising work on them.
ghost use Rattle.std.specs.Prelude.{◌≡◌};
ghost use Rattle.octets.specs.Served.{Served};
ghost use Rattle.closest.specs.Rows.{SomeRows};
ghost use Rattle.shapes.specs.Work.{Blank, Prepares};

use crate::shape::{Shape, draw};
use crate::tests::tests5_7;
use closest::rows::RowsRead;
use paper::Format;
use paper::refusal::Refusal;

// The number of rows and the shape.
#[derive(Clone, Copy, Drop)]
pub struct Preparation {
    pub rows: usize,
    pub shape: Shape,
}

// Refusals 5 to 7 in their order, or the work, for the rows of a table that were read: where the types meet and the ways of the entries are
// found in the lent lists, so that none of them is copied on its way to a walk.
pub fn prepare(
    shape: &[u8],
    f: Format,
    read: RowsRead,
    levels: &[u8],
    types: &[u8],
    meetings: &mut [u8],
    ways: &mut [u8],
) -> Result<Preparation, Refusal>
    requires { Served f × SomeRows f read levels.now types.now × Blank meetings.old ways.old }
    ensures { Prepares f shape.now read result levels.now types.now meetings.new ways.new }
{
    let type_parents = read.parents;
    let type_labels = read.labels;
    let tested = tests5_7(shape, f, &type_parents, &type_labels, read.count, ways)?;
    let entry_types = tested.types;
    let entry_levels = tested.levels;
    let labels = tested.labels;
    let parents = tested.parents;
    closest::meet::meetings(levels, types, read.rows, entry_types, meetings);
    let drawn = draw(
        tested.entries,
        entry_levels,
        labels,
        entry_types,
        parents,
        meetings,
    );
    Ok(Preparation {
        rows: read.rows,
        shape: drawn,
    })
}
