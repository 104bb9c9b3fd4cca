// Judging a table and a shape.
ghost use Rattle.std.specs.Prelude.{◌≡◌};
ghost use Rattle.paper.specs.Calls.{judge};
ghost use Rattle.paper.specs.Index.{judge_with};
ghost use Rattle.octets.specs.Served.{Served};
ghost use Rattle.closest.specs.Rows.{SomeRows};
ghost use Rattle.judging.specs.Judged.{judged, in_numbers, edges_of};
ghost use Rattle.judging.specs.Told.{numbers_in, JudgesRows};

use crate::full::full_edges;
use crate::lone::first_lone;
use crate::pairs::first_fault;
use crate::second::{none_apart, none_apart_beside};
use crate::verdict::Verdict;
use closest::rows::{RowsRead, read_rows};
use indexes::test::read_indexed;
use paper::Format;
use paper::refusal::Refusal;
use partners::edges::{Edges, walk_edges};
use shapes::work::prepare;

// What is judged: the verdict, the second answer, and for each entry but the first how many closest rows there are along its edge, both ways;
// entry 0 and unused entries hold zeros.
#[derive(Clone, Copy, Drop)]
pub struct Judged {
    pub verdict: Verdict,
    pub none_apart: bool, // no pair of entries would earn a 2, whatever the verdict
    pub least_children: [usize; 16], // under a row of the parent entry's type
    pub greatest_children: [usize; 16],
    pub least_parents: [usize; 16], // of a row of the entry's type
    pub greatest_parents: [usize; 16],
}

fn given(verdict: Verdict, none_apart: bool, edges: Edges) -> Judged
    ensures { (result.verdict ≡ verdict) × (result.none_apart ≡ none_apart) × (edges_of result ≡ numbers_in edges) }
{
    let least_children = edges.least_children;
    let greatest_children = edges.greatest_children;
    let least_parents = edges.least_parents;
    let greatest_parents = edges.greatest_parents;
    Judged {
        verdict,
        none_apart,
        least_children,
        greatest_children,
        least_parents,
        greatest_parents,
    }
}

// Refusals 5 to 7, or the verdict, a row without a partner before all pairs, the second answer over all pairs, and the numbers of all edges,
// whatever the verdict, for the rows of a table that were read.
pub fn judge_rows(
    shape: &[u8],
    f: Format,
    read: RowsRead,
    levels: &[u8],
    types: &[u8],
) -> Result<Judged, Refusal>
    requires { Served f × SomeRows f read levels.now types.now }
    ensures { JudgesRows f shape.now read levels.now types.now result }
{
    let mut meetings = [0u8; 1024];
    let mut ways = [0u8; 128];
    let prepared = prepare(shape, f, read, levels, types, &mut meetings, &mut ways)?;
    let rows = prepared.rows;
    let drawn = prepared.shape;
    let edges = walk_edges(levels, types, rows, drawn);
    let lone = first_lone(levels, types, rows, drawn, edges.met, edges.from);
    match lone {
        Verdict::Kept => {
            let least = edges.least_children;
            let full = full_edges(least);
            let fault = first_fault(drawn, &ways, full, &meetings);
            let none = none_apart_beside(fault, drawn, &ways, &meetings);
            Ok(given(fault, none, edges))
        }
        _ => {
            let none = none_apart(drawn, &ways, &meetings);
            Ok(given(lone, none, edges))
        }
    }
}

// Refusals 1 to 4, or what is judged of the rows that were read.
pub fn judge(table: &[u8], shape: &[u8], f: Format) -> Result<Judged, Refusal>
    requires { Served f }
    ensures { judged result ≡ in_numbers (judge f table.now shape.now) }
{
    let mut levels = [0u8; 1024];
    let mut types = [0u8; 1024];
    let read = read_rows(table, f, &mut levels, &mut types)?;
    judge_rows(shape, f, read, &levels, &types)
}

// Refusals 1 to 4, then 14 and 15 of the lists that are lent as the table's index, or what is judged of the rows that were read.
pub fn judge_with_index(
    table: &[u8],
    shape: &[u8],
    f: Format,
    last: &[u16],
    next: &[u16],
) -> Result<Judged, Refusal>
    requires { Served f }
    ensures { judged result ≡ in_numbers (judge_with f table.now shape.now last.now next.now) }
{
    let mut levels = [0u8; 1024];
    let mut types = [0u8; 1024];
    let read = read_indexed(table, f, last, next, &mut levels, &mut types)?;
    judge_rows(shape, f, read, &levels, &types)
}
