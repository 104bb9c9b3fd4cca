// The line of an edge: `edge`, the entry, and its four numbers.
ghost use Rattle.std.specs.Prelude.{map, ◌+◌, ◌≤◌, length};
ghost use Rattle.io.specs.Counts.{IsPrefixLen};
ghost use Rattle.grammar.specs.Text.{space, decimal, followed};
ghost use Rattle.listing.specs.Listing.{edge_text};
ghost use Rattle.listing.specs.Edge.{in_order};
ghost use Rattle.names.specs.Put.{Put};

use names::put::{put_after, put_byte, put_bytes};

// The numbers of one edge.
#[derive(Clone, Copy, Drop)]
pub struct Edge {
    pub least_children: usize, // under a row of the parent entry's type
    pub greatest_children: usize,
    pub least_parents: usize, // of a row of the entry's type
    pub greatest_parents: usize,
}

// The four numbers, a space before each.
pub fn put_numbers(out: &mut [u8], at: usize, edge: Edge) -> usize
    requires { at + 84 ≤ length out.old }
    ensures { Put out.old at (followed space (map decimal (in_order edge))) out.new result × (result ≤ at + 84) }
{
    let fewest = put_after(out, at, b' ', edge.least_children);
    let most = put_after(out, fewest, b' ', edge.greatest_children);
    let few = put_after(out, most, b' ', edge.least_parents);
    put_after(out, few, b' ', edge.greatest_parents)
}

// The line of entry e's edge, at the front of the buffer.
pub fn put_edge(out: &mut [u8; 256], e: usize, edge: Edge) -> usize
    ensures put { Put out.old 0 (edge_text e (in_order edge)) out.new result }
    ensures prefix_len { IsPrefixLen result out.new }
{
    let word = put_bytes(out, 0, b"edge");
    let entry = put_after(out, word, b' ', e);
    let numbers = put_numbers(out, entry, edge);
    put_byte(out, numbers, b'\n')
}
