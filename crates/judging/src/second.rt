// The second answer: does no pair of entries earn a 2? Whether edges are full does not matter for it, so that a pair costs less than in
// the search for the first that earns a 2 or a 3.
ghost use Rattle.std.specs.Prelude.{◌≡◌, length};
ghost use Rattle.judging.specs.Pairs.{Room, no_pair_apart, FirstFault};

use crate::pairs::walk_path;
use crate::verdict::Verdict;
use shapes::edges::meeting;
use shapes::shape::Shape;

// Does no pair earn a 2?
pub fn none_apart(shape: Shape, ways: &[u8], meetings: &[u8]) -> bool
    requires { Room shape ways.now × (length meetings.now ≡ 1024) }
    ensures { result ≡ no_pair_apart shape ways.now meetings.now }
{
    for e in 0..shape.entries {
        for f in e + 1..shape.entries {
            let path = walk_path(shape.levels, shape.edges, ways, e, f);
            if path.least != meeting(meetings, shape.types, e, f) {
                return false;
            }
        }
    }
    true
}

// The second answer beside the first pair that earns a 2 or a 3: where none does it is yes, where that pair earns a 2 it is no, and after a 3
// the pairs are looked at for a 2.
pub fn none_apart_beside(fault: Verdict, shape: Shape, ways: &[u8], meetings: &[u8]) -> bool
    requires { Room shape ways.now × (length meetings.now ≡ 1024) × FirstFault shape ways.now meetings.now fault }
    ensures { result ≡ no_pair_apart shape ways.now meetings.now }
{
    match fault {
        Verdict::Kept => true,
        Verdict::Apart { .. } => false,
        _ => none_apart(shape, ways, meetings),
    }
}
