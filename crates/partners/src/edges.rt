// The edges of a shape, each named by its lower entry: how many closest rows their rows have, both ways.
ghost use Rattle.std.specs.Prelude.{◌≡◌, ◌+◌, ◌≤◌, ◌<◌, length, MatchOption};
ghost use Rattle.closest.specs.Runs.{Rows, start_of};
ghost use Rattle.shapes.specs.Shape.{Sized};
ghost use Rattle.partners.specs.Closest.{Bound};
ghost use Rattle.partners.specs.Eight.{no_number};
ghost use Rattle.partners.specs.Edges.{Grouped, Found, of_entry, or_zero, Spread, FirstAlone, EndWithin, RunStart, Edged};

use crate::eight::{Eight, nothing, walk_eight};
use shapes::shape::Shape;

// The level up to which a row begins a run of level l. At level 0 each row is a run of its own.
pub fn run_bound(l: u8) -> u8
    ensures { Bound l result }
{
    if l == 0 { 255 } else { l }
}

// The first row of the run of level l around a row.
fn run_start(levels: &[u8], l: u8, row: usize) -> usize
    requires { row < length levels.now }
    ensures { result ≡ start_of levels.now l row }
{
    let bound = run_bound(l);
    for i in (1..row + 1).rev() {
        if levels[i] <= bound {
            return i;
        }
    }
    0
}

// Eight edges as they are walked at once: the level up to which a row begins a run, the types of the parents and those of the children.
// 65,535 is no row's type.
#[derive(Clone, Copy, Drop)]
pub struct Group {
    pub bounds: [u16; 8],
    pub over: [u16; 8],
    pub own: [u16; 8],
}

// The edges of the eight entries from entry `first` on. Entry 0 and entries past the last have no edge, and the bound 0, so that more rows lie
// deeper than every bound.
fn group_from(shape: Shape, first: usize) -> Group
    requires { Sized shape × (first + 8 ≤ 16) }
    ensures { Grouped shape first result }
{
    let mut bounds = [0u16; 8];
    let mut over = [0u16; 8];
    let mut own = [0u16; 8];
    for e in 0..8 {
        let c = first + e;
        if (0 < c) & (c < shape.entries) {
            bounds[e] = run_bound(shape.edges[c]) as u16;
            over[e] = shape.types[octets::wide(shape.parents[c])] as u16;
            own[e] = shape.types[c] as u16;
        } else {
            bounds[e] = 0;
            over[e] = 65535;
            own[e] = 65535;
        }
    }
    Group { bounds, over, own }
}

// What is found of these edges. No row is walked where none of the entries has an edge.
fn walk_group(levels: &[u8], types: &[u8], rows: usize, shape: Shape, first: usize) -> Eight
    requires { Rows rows levels.now types.now × Sized shape × (first + 8 ≤ 16) }
    ensures { Found levels.now types.now rows shape first result }
{
    if (shape.entries <= first) | (shape.entries < 2) {
        return nothing();
    }
    let group = group_from(shape, first);
    walk_eight(levels, types, rows, group.bounds, group.over, group.own)
}

// The place of entry c in the two groups of eight.
#[tactic(auto, unfolding(crate::specs::Edges::of_entry))]
fn of_entry(low: [u16; 8], high: [u16; 8], c: usize) -> usize
    requires { c < 16 }
    ensures { (result ≡ of_entry low high c) × (result ≤ no_number) }
{
    octets::wide16(if c < 8 { low[c] } else { high[c - 8] })
}

// A number as it is told: 0 for the least of no numbers.
fn told(x: u16) -> usize
    ensures { result ≡ or_zero x }
{
    if x == 65535 { 0 } else { octets::wide16(x) }
}

// Each entry's place of the two groups, as it is told.
fn spread(low: [u16; 8], high: [u16; 8]) -> [usize; 16]
    ensures { Spread low high result }
{
    let mut all = [0usize; 16];
    for e in 0..8 {
        all[e] = told(low[e]);
        all[e + 8] = told(high[e]);
    }
    all
}

// The first entry from 1 on where a run ends that has children and no parents.
fn first_alone(low: [u16; 8], high: [u16; 8], entries: usize) -> Option<usize>
    requires { (1 ≤ entries) × (entries ≤ 16) }
    ensures { MatchOption result (FirstAlone low high entries entries) (λ c. (c < entries) × FirstAlone low high entries c) }
{
    for c in 1..entries {
        if of_entry(low, high, c) != 65535 {
            return Some(c);
        }
    }
    None
}

// The first row of the run, of entry c's edge, that ends at the entry's place.
fn lone_start(levels: &[u8], shape: Shape, low: [u16; 8], high: [u16; 8], c: usize) -> usize
    requires { (c < shape.entries) × (shape.entries ≤ 16) × EndWithin (length levels.now) shape low high c }
    ensures { RunStart levels.now shape low high c result }
{
    let end = of_entry(low, high, c);
    run_start(levels, shape.edges[c], end - 1)
}

// What is found of the edges: for each entry but the first the least and the greatest number of children under a parent row, and of parents of
// a child row; entry 0 and unused entries hold zeros.
#[derive(Clone, Copy, Drop)]
pub struct Edges {
    pub least_children: [usize; 16],
    pub greatest_children: [usize; 16],
    pub least_parents: [usize; 16],
    pub greatest_parents: [usize; 16],
    pub met: usize, // the first entry that has a row without a partner, the number of entries where there is none
    pub from: usize, // no row of that entry's type before this one is without a partner
}

// The numbers of all edges of a shape, and the first entry that has a row without a partner.
pub fn walk_edges(levels: &[u8], types: &[u8], rows: usize, shape: Shape) -> Edges
    requires { Rows rows levels.now types.now × Sized shape }
    ensures { Edged levels.now types.now rows shape result }
{
    let low = walk_group(levels, types, rows, shape, 0);
    let high = walk_group(levels, types, rows, shape, 8);
    let (met, from) = match first_alone(low.lone, high.lone, shape.entries) {
        Some(c) => (c, lone_start(levels, shape, low.lone, high.lone, c)),
        None => (shape.entries, 0),
    };
    Edges {
        least_children: spread(low.least_children, high.least_children),
        greatest_children: spread(low.greatest_children, high.greatest_children),
        least_parents: spread(low.least_parents, high.least_parents),
        greatest_parents: spread(low.greatest_parents, high.greatest_parents),
        met,
        from,
    }
}
