// A shape as the walks use it.
ghost use Rattle.std.specs.Prelude.{◌≡◌, length};
ghost use Rattle.shapes.specs.Edges.{Known};
ghost use Rattle.shapes.specs.Shape.{Drawn};

use crate::edges::{edge_levels, entry_ends};

// Of each entry its level, the last label of its type, the number of its type, its parent, the level at which the two types meet, and one
// past its last child entry. It goes by value, and what is past the entries does not matter.
#[derive(Clone, Copy, Drop)]
pub struct Shape {
    pub entries: usize,
    pub levels: [u8; 16],
    pub labels: [u16; 16],
    pub types: [u8; 16],
    pub parents: [u8; 16], // 0 for entry 0
    pub edges: [u8; 16], // an edge is named by its lower entry
    pub ends: [u8; 16], // 0 where there is no child entry
}

// The shape of entries that were read, with its edges.
pub fn draw(
    entries: usize,
    levels: [u8; 16],
    labels: [u16; 16],
    types: [u8; 16],
    parents: [u8; 16],
    meetings: &[u8],
) -> Shape
    requires { Known entries types parents × (length meetings.now ≡ 1024) }
    ensures { Drawn entries levels labels types parents meetings.now result }
{
    let edges = edge_levels(meetings, types, parents, entries);
    let ends = entry_ends(parents, entries);
    Shape {
        entries,
        levels,
        labels,
        types,
        parents,
        edges,
        ends,
    }
}
