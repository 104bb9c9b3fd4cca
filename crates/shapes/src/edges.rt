// The edges of a shape, each named by its lower entry: the level at which its two types meet. And where the children of an entry end.
ghost use Rattle.std.specs.Prelude.{◌≡◌, ◌<◌, length, get_or};
ghost use Rattle.shapes.specs.Edges.{Known, Inside, meeting_of, EdgeLevels, Ends};

// The level at which the types of entries e and f meet.
pub fn meeting(meetings: &[u8], types: [u8; 16], e: usize, f: usize) -> usize
    requires { (length meetings.now ≡ 1024) × (e < 16) × (f < 16) × (get_or types e 0 < 64) × (get_or types f 0 < 64) }
    ensures { (result ≡ meeting_of meetings.now types e f) × (result < 256) }
{
    let down = meetings[16 * octets::wide(types[f]) + e];
    let up = meetings[16 * octets::wide(types[e]) + f];
    octets::wide(down).max(octets::wide(up))
}

// The level of each edge.
pub fn edge_levels(meetings: &[u8], types: [u8; 16], parents: [u8; 16], entries: usize) -> [u8; 16]
    requires { Known entries types parents × (length meetings.now ≡ 1024) }
    ensures { EdgeLevels meetings.now types parents entries result }
{
    let mut edges = [0u8; 16];
    for c in 0..entries {
        let p = octets::wide(parents[c]);
        edges[c] = meeting(meetings, types, p, c) as u8;
    }
    edges
}

// One past the last child of each entry, 0 where there is none.
pub fn entry_ends(parents: [u8; 16], entries: usize) -> [u8; 16]
    requires { Inside entries parents }
    ensures { Ends parents entries result }
{
    let mut ends = [0u8; 16];
    for c in 1..entries {
        ends[octets::wide(parents[c])] = (c + 1) as u8;
    }
    ends
}
