// The search for a row without a partner. Rows stand in document order, so that the rows that can be partners of a row are the
// unbroken run around it; the rows of one run share them, and the candidates of a run are walked once.
ghost use Rattle.std.specs.Prelude.{◌≡◌, ◌-◌, ◌≤◌, ◌<◌, length};
ghost use Rattle.paper.specs.Lists.{first_or};
ghost use Rattle.paper.specs.Verdict.{kept};
ghost use Rattle.closest.specs.Runs.{Rows};
ghost use Rattle.shapes.specs.Shape.{Sized};
ghost use Rattle.judging.specs.Told.{told};
ghost use Rattle.judging.specs.Lone.{candidate_from, OnInRun, lone_from};
ghost use Rattle.partners.specs.Edges.{AllMet};

use crate::verdict::Verdict;
use partners::edges::run_bound;
use shapes::shape::Shape;

// Where the candidates for row r are looked for: from r itself where a run begins there, and else from j on.
fn candidate_from(levels: &[u8], bound: u8, r: usize, j: usize) -> usize
    requires { r < length levels.now }
    ensures { result ≡ candidate_from levels.now bound r j }
{
    if levels[r] <= bound { r } else { j }
}

// The row after row j in its run, `rows` where there is none.
fn next_in_run(levels: &[u8], rows: usize, bound: u8, j: usize) -> usize
    requires { (j < rows) × (rows ≤ length levels.now) }
    ensures { OnInRun levels.now rows bound j result }
{
    let k = j + 1;
    if k < rows && bound < levels[k] {
        k
    } else {
        rows
    }
}

// The first row without a partner, by entry, then by row: from entry `met` on, whose rows before row `from` all have one.
pub fn first_lone(
    levels: &[u8],
    types: &[u8],
    rows: usize,
    shape: Shape,
    met: usize,
    from: usize,
) -> Verdict
    requires { Rows rows levels.now types.now × Sized shape × AllMet levels.now types.now rows shape met from }
    ensures { told result ≡ first_or kept (lone_from levels.now types.now rows shape 1 (shape.entries - 1)) }
{
    let mut lone = Verdict::Kept;
    let mut first = from;
    'entries: for c in met..shape.entries {
        let own = shape.types[c];
        let other = shape.types[octets::wide(shape.parents[c])];
        let bound = run_bound(shape.edges[c]);
        let mut j = first;
        'rows: for r in first..rows {
            j = candidate_from(levels, bound, r, j);
            if types[r] == own {
                while j < rows {
                    if types[j] == other {
                        continue 'rows;
                    }
                    j = next_in_run(levels, rows, bound, j);
                }
                lone = Verdict::Missing { entry: c, row: r };
                break 'entries;
            }
        }
        first = 0;
    }
    lone
}
