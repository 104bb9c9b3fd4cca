// The entries of a shape: level, last label, parent and way of each.
ghost use Rattle.std.specs.Prelude.{◌≡◌, [], ◌*◌, ◌≤◌, ◌<◌, length};
ghost use Rattle.std.proofs.Math.Option.{none};
ghost use Rattle.paper.specs.Lists.{last_or, up};
ghost use Rattle.paper.specs.Format.{most_entries, entry_bytes, whole};
ghost use Rattle.paper.specs.Shapes as Shapes;
ghost use Rattle.paper.specs.Shapes.{bad_entry, shape_over};
ghost use Rattle.shapes.specs.Ways.{way_places, way_at, Put, Laid};

use paper::Format;

// The way of entry e, of level l, is put behind the ways of the entries before it. Each way has eight places.
fn put_way(ways: &mut [u8], e: usize, l: usize)
    requires { (length ways.old ≡ way_places * most_entries) × (e < 16) × (1 ≤ l) × (l ≤ 8) × (e ≡ 0 → l ≡ 1) }
    ensures { Put ways.old e l ways.new }
{
    if 1 < l {
        let before = 8 * (e - 1);
        ways.copy_within(before..before + (l - 1), 8 * e);
    }
    ways[8 * e + (l - 1)] = e as u8;
}

// The parent of the entry whose way this is: the last but one, 0 for entry 0.
fn parent_of(ways: &[u8], e: usize, l: usize) -> u8
    requires { (length ways.now ≡ way_places * most_entries) × (e < 16) × (1 ≤ l) × (l ≤ 8) }
    ensures { result ≡ last_or 0 (up (way_at ways.now e l)) }
{
    if l < 2 { 0 } else { ways[8 * e + (l - 2)] }
}

// Each entry's level, the last label of its type, and its parent (0 for entry 0).
#[derive(Clone, Copy, Drop)]
pub struct Fields {
    pub levels: [u8; 16],
    pub labels: [u16; 16],
    pub parents: [u8; 16],
}

// The entries of a shape that keeps the entry rules, and the way of each in the lent list: eight places an entry, of which its level says
// how many are used.
pub fn entry_ways(shape: &[u8], f: Format, entries: usize, ways: &mut [u8]) -> Fields
    requires entries_value { (entries ≡ whole (entry_bytes f) shape.now) × (entries ≤ most_entries) × (f.levels ≤ 8) }
    requires shape_value { (bad_entry f (Shapes.entries f shape.now) ≡ none) × (length ways.old ≡ way_places * most_entries) }
    ensures { Laid (shape_over [] (Shapes.entries f shape.now)) entries result ways.new }
{
    let w = octets::entry_bytes(f);
    let mut levels = [0u8; 16];
    let mut labels = [0u16; 16];
    let mut parents = [0u8; 16];
    for e in 0..entries {
        let entry = octets::record(shape, w, e);
        let l = octets::wide(entry[0]);
        let size = octets::wide(entry[1]);
        levels[e] = entry[0];
        labels[e] = tables::row::component(entry, f, size - 1) as u16;
        put_way(ways, e, l);
        parents[e] = parent_of(ways, e, l);
    }
    Fields {
        levels,
        labels,
        parents,
    }
}
