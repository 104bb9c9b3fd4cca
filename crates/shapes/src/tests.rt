// A shape by itself and over the types of a table: refusals 5 to 7, or what was read of it.
ghost use Rattle.std.specs.Prelude.{◌≡◌, ◌*◌, ◌≤◌, length};
ghost use Rattle.paper.specs.Format.{most_entries, most_types};
ghost use Rattle.octets.specs.Served.{Served};
ghost use Rattle.shapes.specs.Ways.{way_places};
ghost use Rattle.shapes.specs.Tests.{shape_examined, shape_reply, PassesEach};

use crate::entry::bad_entry;
use crate::entry_types::entry_types;
use crate::ways::entry_ways;
use paper::Format;
use paper::refusal::Refusal;

// Refusals 5 and 6, or the number of entries.
pub fn examine_shape(shape: &[u8], f: Format) -> Result<usize, Refusal>
    requires { Served f }
    ensures { shape_examined result ≡ shape_reply f shape.now }
{
    let w = octets::entry_bytes(f);
    if shape.is_empty() || 16 * w < shape.len() || shape.len() % w != 0 {
        return Err(Refusal::NoShape);
    }
    let entries = shape.len() / w;
    match bad_entry(shape, f, entries) {
        Some(bad) => Err(Refusal::BadEntry(bad)),
        None => Ok(entries),
    }
}

// The number of entries with the level, last label, parent and type number of each.
#[derive(Clone, Copy, Drop)]
pub struct Tested {
    pub entries: usize,
    pub levels: [u8; 16],
    pub labels: [u16; 16],
    pub parents: [u8; 16],
    pub types: [u8; 16],
}

// Refusals 5 to 7 in their order, over the listed types of a table, or what was read: each entry's way is found in the lent list.
pub fn tests5_7<'a>(
    shape: &[u8],
    f: Format,
    parents: &'a [u8],
    labels: &'a [u16],
    count: usize,
    ways: &mut [u8],
) -> Result<Tested, Refusal>
    requires served { Served f × (length ways.old ≡ way_places * most_entries) }
    requires count_in_bounds { (count ≤ length parents.now) × (count ≤ length labels.now) × (count ≤ most_types) }
    ensures { PassesEach f parents.now labels.now count shape.now result ways.new }
{
    let entries = examine_shape(shape, f)?;
    let types = entry_types(shape, f, entries, parents, labels, count)?;
    let laid = entry_ways(shape, f, entries, ways);
    let entry_levels = laid.levels;
    let entry_labels = laid.labels;
    let entry_parents = laid.parents;
    Ok(Tested {
        entries,
        levels: entry_levels,
        labels: entry_labels,
        parents: entry_parents,
        types,
    })
}
