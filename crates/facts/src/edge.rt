// An edge with the names of what it joins, so that its numbers can be said in words.
ghost use Rattle.io.specs.Counts.{IsPrefixLen};
ghost use Rattle.listing.specs.Edge.{in_order};
ghost use Rattle.names.specs.Put.{Put};
ghost use Rattle.facts.specs.Facts.{edge_fact};

use listing::edge::{Edge, put_numbers};
use names::names::put_name;
use names::put::{put_after, put_byte, put_bytes};

// The entry of an edge, the last labels of its parent entry's type and of its own, and its numbers, at the front of the buffer.
pub fn put_edge_named(out: &mut [u8; 256], e: usize, over: usize, own: usize, edge: Edge) -> usize
    ensures put { Put out.old 0 (edge_fact e over own (in_order edge)) out.new result }
    ensures prefix_len { IsPrefixLen result out.new }
{
    let word = put_bytes(out, 0, b"edge");
    let entry = put_after(out, word, b' ', e);
    let gap = put_byte(out, entry, b' ');
    let above = put_name(out, gap, over);
    let gap2 = put_byte(out, above, b' ');
    let below = put_name(out, gap2, own);
    let numbers = put_numbers(out, below, edge);
    put_byte(out, numbers, b'\n')
}
