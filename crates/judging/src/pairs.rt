// Pairs of entries: the least level on their path, full edges, and the first pair that earns a 2 or a 3. Full edges come in an array,
// found once for all pairs. What runs for each pair takes only the arrays that it reads, since a Shape by value is copied
// at each call.
ghost use Rattle.std.specs.Prelude.{◌≡◌, length, get_or, drop};
ghost use Rattle.paper.specs.Closeness.{shared};
ghost use Rattle.judging.specs.Told.{told};
ghost use Rattle.judging.specs.Pairs.{WayFits, way_of, lowest, levels_on, sure_on, Found, earned, Room, first_fault};

use crate::verdict::Verdict;
use shapes::edges::meeting;
use shapes::shape::Shape;

// How many entries the ways of e and f share.
fn shared_way(levels: [u8; 16], ways: &[u8], e: usize, f: usize) -> usize
    requires { WayFits ways.now e (get_or levels e 0) × WayFits ways.now f (get_or levels f 0) }
    ensures { result ≡ shared (way_of levels ways.now e) (way_of levels ways.now f) }
{
    let most = octets::wide(levels[e]).min(octets::wide(levels[f]));
    for k in 0..most {
        if ways[8 * e + k] != ways[8 * f + k] {
            return k;
        }
    }
    most
}

// The least of b and the levels of the edges on the way to e from place k on.
fn least_level(
    levels: [u8; 16],
    edges: [u8; 16],
    ways: &[u8],
    e: usize,
    k: usize,
    b: usize,
) -> usize
    requires { WayFits ways.now e (get_or levels e 0) }
    ensures { result ≡ lowest b (levels_on edges (drop k (way_of levels ways.now e))) }
{
    let size = octets::wide(levels[e]);
    let mut least = b;
    for i in k..size {
        let c = octets::wide(ways[8 * e + i]);
        least = least.min(octets::wide(edges[c]));
    }
    least
}

// Has some edge of level l on the way to e from place k on only full edges before it?
fn sure_down(
    levels: [u8; 16],
    edges: [u8; 16],
    full: [bool; 16],
    ways: &[u8],
    e: usize,
    k: usize,
    l: usize,
) -> bool
    requires { WayFits ways.now e (get_or levels e 0) }
    ensures { result ≡ sure_on edges full l (drop k (way_of levels ways.now e)) }
{
    let size = octets::wide(levels[e]);
    for i in k..size {
        let c = octets::wide(ways[8 * e + i]);
        if octets::wide(edges[c]) == l {
            return true;
        }
        if !full[c] {
            return false;
        }
    }
    false
}

// What is found of the path between two entries.
#[derive(Clone, Copy, Drop)]
pub struct Path {
    pub shared: usize, // how many entries their ways share
    pub least: usize, // the least level on it
}

// The path between the entries e and f.
pub fn walk_path(levels: [u8; 16], edges: [u8; 16], ways: &[u8], e: usize, f: usize) -> Path
    requires { WayFits ways.now e (get_or levels e 0) × WayFits ways.now f (get_or levels f 0) }
    ensures { Found levels edges ways.now e f result }
{
    let k = shared_way(levels, ways, e, f);
    let down = least_level(levels, edges, ways, e, k, 255);
    let least = least_level(levels, edges, ways, f, k, down);
    Path { shared: k, least }
}

// What the pair of entries e and f earns, whose types meet at l.
fn pair_verdict(
    levels: [u8; 16],
    edges: [u8; 16],
    full: [bool; 16],
    ways: &[u8],
    l: usize,
    e: usize,
    f: usize,
) -> Verdict
    requires { WayFits ways.now e (get_or levels e 0) × WayFits ways.now f (get_or levels f 0) }
    ensures { told result ≡ earned levels edges full ways.now l e f }
{
    let path = walk_path(levels, edges, ways, e, f);
    let k = path.shared;
    if path.least != l {
        Verdict::Apart {
            first: e,
            second: f,
        }
    } else if sure_down(levels, edges, full, ways, e, k, l)
        || sure_down(levels, edges, full, ways, f, k, l)
    {
        Verdict::Kept
    } else {
        Verdict::Unsure {
            first: e,
            second: f,
        }
    }
}

// The first pair, by e, then f, that earns a 2 or a 3.
pub fn first_fault(shape: Shape, ways: &[u8], full: [bool; 16], meetings: &[u8]) -> Verdict
    requires { Room shape ways.now × (length meetings.now ≡ 1024) }
    ensures { told result ≡ first_fault shape ways.now full meetings.now }
{
    for e in 0..shape.entries {
        for f in e + 1..shape.entries {
            let l = meeting(meetings, shape.types, e, f);
            let v = pair_verdict(shape.levels, shape.edges, full, ways, l, e, f);
            match v {
                Verdict::Kept => {}
                _ => return v,
            }
        }
    }
    Verdict::Kept
}
