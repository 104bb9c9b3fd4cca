// Which edges are full: an edge is full where the least number of children under a row of the parent entry's type is not 0.
ghost use Rattle.judging.specs.Full.{FullBy};

// Entry 0 counts as one whose edge is full.
pub fn full_edges(least: [usize; 16]) -> [bool; 16]
    ensures { FullBy least result }
{
    let mut full = [true; 16];
    for c in 1..16 {
        full[c] = least[c] != 0;
    }
    full
}
