// The adorned shape's figures, computed by value: one summary a type. Children are counted along the rows' type numbers, since the
// children of a row stand before the next row of its type.
#![tactic(auto)]

pub mod lent;

ghost use Rattle.std.specs.Prelude.{◌≡◌, [], map, ◌≤◌, length, take};
ghost use Rattle.paper.specs.Format.{most_rows, most_types};
ghost use Rattle.octets.specs.Served.{Served};
ghost use Rattle.closest.specs.Runs.{Rows};
ghost use Rattle.adorned.specs.Runs.{runs, with_count, CountRange, TypeLevels};
ghost use Rattle.adorned.specs.Told.{told, no_summary, placed, Summarises, SummariesOf, ReadsTypes, Says, adorn_figures};

use closest::rows::{RowsRead, read_rows};
use paper::Format;
use paper::refusal::Refusal;

// The least and the greatest of some counts.
#[derive(Clone, Copy, Drop)]
pub struct Range {
    pub least: usize,
    pub greatest: usize,
}

// One count more, where r is the range of those before, if any.
fn with_count(r: Option<Range>, c: usize) -> Range
    ensures { result ≡ with_count r c }
{
    match r {
        Some(r) => Range {
            least: r.least.min(c),
            greatest: r.greatest.max(c),
        },
        None => Range {
            least: c,
            greatest: c,
        },
    }
}

// The least and the greatest number of children of type k under a row of type p; zeros where there is no such row. The first such row is
// looked for by itself, so that the walk from there on has nothing to ask but a row's type: `c` is the number under the last such row so far,
// and r the range of those before it.
fn children_range(types: &[u8], rows: usize, p: usize, k: usize) -> Range
    requires { rows ≤ length types.now }
    ensures { CountRange (runs p k (take rows types.now)) result.least result.greatest }
{
    let Some(first) = types[..rows].iter().position(|t| octets::wide(*t) == p) else {
        return Range {
            least: 0,
            greatest: 0,
        };
    };
    let mut r = None;
    let mut c = 0;
    for i in first + 1..rows {
        let x = octets::wide(types[i]);
        if x == p {
            r = Some(with_count(r, c));
            c = 0;
        } else if x == k {
            c += 1;
        }
    }
    with_count(r, c)
}

// The summary of a type: its parent type (64 for none), last label, level, number of rows, and the least and the greatest number
// of children of this type under a row of the parent type.
#[repr(C)]
#[derive(Clone, Copy, Drop)]
pub struct TypeSummary {
    pub parent: usize,
    pub label: usize,
    pub level: usize,
    pub rows: usize,
    pub least: usize,
    pub greatest: usize,
}

// The level of each type: that of its rows.
fn type_levels(levels: &[u8], types: &[u8], rows: usize) -> [u8; 64]
    requires { Rows rows levels.now types.now }
    ensures { TypeLevels rows levels.now types.now result }
{
    let mut found = [0u8; 64];
    for i in 0..rows {
        found[octets::wide(types[i])] = levels[i];
    }
    found
}

// The summary of type k, from its parent type, its last label and its level.
fn summary_of(
    types: &[u8],
    rows: usize,
    k: usize,
    parent: usize,
    label: usize,
    level: usize,
) -> TypeSummary
    requires { rows ≤ length types.now }
    ensures { Summarises rows types.now k parent label level result }
{
    let c = closest::count_rows(types, rows, k);
    let r = if parent == 64 {
        Range {
            least: c,
            greatest: c,
        }
    } else {
        children_range(types, rows, parent, k)
    };
    TypeSummary {
        parent,
        label,
        level,
        rows: c,
        least: r.least,
        greatest: r.greatest,
    }
}

// What adorning finds out of a table: one summary a type; places past the count hold zeros.
#[derive(Clone, Copy, Drop)]
pub struct Adorned {
    pub count: usize,
    pub summaries: [TypeSummary; 64],
}

fn no_summary() -> TypeSummary
    ensures { told result ≡ no_summary }
{
    TypeSummary {
        parent: 0,
        label: 0,
        level: 0,
        rows: 0,
        least: 0,
        greatest: 0,
    }
}

fn no_summaries() -> [TypeSummary; 64]
    ensures { map told result ≡ placed [] }
{
    let none = no_summary();
    [none; 64]
}

// Puts the summaries of the types of a table whose rows were read, one a type in type order, where none stood.
fn put_summaries(read: RowsRead, levels: &[u8], types: &[u8], all: &mut [TypeSummary])
    requires { Rows read.rows levels.now types.now × (read.count ≤ most_types) × (map told all.old ≡ placed []) }
    ensures { SummariesOf read levels.now types.now all.new }
{
    let depths = type_levels(levels, types, read.rows);
    for k in 0..read.count {
        let p = octets::wide(read.parents[k]);
        let a = octets::wide16(read.labels[k]);
        let l = octets::wide(depths[k]);
        all[k] = summary_of(types, read.rows, k, p, a, l);
    }
}

// The summaries of the types of a table whose rows were read.
fn summaries_of(read: RowsRead, levels: &[u8], types: &[u8]) -> [TypeSummary; 64]
    requires { Rows read.rows levels.now types.now × (read.count ≤ most_types) }
    ensures { SummariesOf read levels.now types.now result }
{
    let mut all = no_summaries();
    put_summaries(read, levels, types, &mut all);
    all
}

// Refusals 1 to 4, then 10 where fewer places are lent than the table has types, or the rows, which both ways to adorn begin with.
fn read_types(
    table: &[u8],
    f: Format,
    lent: usize,
    levels: &mut [u8],
    types: &mut [u8],
) -> Result<RowsRead, Refusal>
    requires { Served f × (length levels.old ≡ most_rows) × (length types.old ≡ most_rows) }
    ensures { ReadsTypes f table.now lent result levels.new types.new }
{
    let read = read_rows(table, f, levels, types)?;
    let count = read.count;
    if lent < count {
        return Err(Refusal::TooFewSummaries);
    }
    Ok(read)
}

// Refusals 1 to 4, then 10 where fewer places are lent than the table has types, or the summaries of its types.
pub fn adorn_by_value(table: &[u8], f: Format, lent: usize) -> Result<Adorned, Refusal>
    requires { Served f }
    ensures { Says (adorn_figures f table.now lent) result }
{
    let mut levels = [0u8; 1024];
    let mut types = [0u8; 1024];
    let read = read_types(table, f, lent, &mut levels, &mut types)?;
    let count = read.count;
    let summaries = summaries_of(read, &levels, &types);
    Ok(Adorned { count, summaries })
}
