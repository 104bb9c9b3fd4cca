// The edges of a shape: a line of the listing for each entry but the first, and the same with names in the report.
ghost use Rattle.std.specs.Prelude.{◌<◌};
ghost use Rattle.octets.specs.Served.{Served};

use crate::out::{Written, print, report};
use crate::width::{entry_at, last_label, served};
use facts::edge::put_edge_named;
use listing::edge::{Edge, put_edge};
use paper::{Format, Width};
use silmezga::Judged;

// The numbers of entry e's edge.
fn edge_of(j: Judged, e: usize) -> Edge
    requires { e < 16 }
{
    Edge {
        least_children: j.least_children[e],
        greatest_children: j.greatest_children[e],
        least_parents: j.least_parents[e],
        greatest_parents: j.greatest_parents[e],
    }
}

fn print_edge(rt: &impl Print, e: usize, edge: Edge) -> Written {
    let mut text = [0u8; 256];
    let n = put_edge(&mut text, e, edge);
    print(rt, &text[..n])
}

// The level of an entry, 0 past the last.
fn level_at(shape: &[u8], f: Format, e: usize) -> usize
    requires { Served f }
{
    match entry_at(shape, f, e) {
        Some(entry) => octets::wide(entry[0]),
        None => 0,
    }
}

// The last label of an entry, 0 past the last.
fn label_at(shape: &[u8], f: Format, e: usize) -> usize
    requires { Served f }
{
    match entry_at(shape, f, e) {
        Some(entry) => last_label(entry, f),
        None => 0,
    }
}

// The parent of an entry of a shape that keeps the rules: the nearest earlier entry of a lower level. The first entry has none, and is its own.
fn parent_at(shape: &[u8], f: Format, e: usize) -> usize
    requires { Served f }
{
    let level = level_at(shape, f, e);
    (0..e)
        .rev()
        .find(|p| level_at(shape, f, *p) < level)
        .unwrap_or(0)
}

// Reports an edge with the names of the last labels of its parent entry's type and of its own.
fn report_edge(channel: i32, shape: &[u8], f: Format, e: usize, edge: Edge) -> Written
    requires { Served f }
{
    let over = label_at(shape, f, parent_at(shape, f, e));
    let own = label_at(shape, f, e);
    let mut text = [0u8; 256];
    let n = put_edge_named(&mut text, e, over, own, edge);
    report(channel, &text[..n])
}

// Prints the line of each edge of a shape that was judged, and reports it with names where there is a channel.
pub fn print_edges(
    rt: &impl Print,
    width: Width,
    shape: &[u8],
    j: Judged,
    channel: Option<i32>,
) -> Written {
    let f = served(width);
    for e in 1..16 {
        if entry_at(shape, f, e).is_none() {
            break;
        }
        let edge = edge_of(j, e);
        print_edge(rt, e, edge)?;
        if let Some(channel) = channel {
            report_edge(channel, shape, f, e, edge)?;
        }
    }
    Ok(())
}
