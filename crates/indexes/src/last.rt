// The last descendant of each row. A row's descendants are the rows behind it that are deeper, up to the first that is not; so a walk back
// over the levels finds them all.
ghost use Rattle.std.specs.Prelude.{◌≤◌, ◌<◌, length};
ghost use Rattle.octets.specs.Served.{most_levels};
ghost use Rattle.indexes.specs.Last.{Stepped, Shallow, LastRow, LastRows};
ghost use Rattle.indexes.specs.Wrong.{FirstWrong};

// The last descendant of row i, which is of level l and has a row of level `behind` behind it. For each level above that one `ends` has the
// last row from there on that is deeper without a break; afterwards it has that of row i.
fn end_of(ends: &mut [u16], behind: usize, l: usize, i: u16) -> u16
    requires { (l ≤ most_levels) × (most_levels < length ends.old) }
    ensures { Stepped behind l i ends.old ends.new result }
{
    if l < behind {
        return ends[l];
    }
    ends[behind..l].fill(i);
    i
}

// Each row's last descendant, itself if none, into the lent list; places past the rows stay as they were.
pub fn put_last(levels: &[u8], rows: usize, last: &mut [u16])
    requires { (rows ≤ length last.old) × Shallow rows levels.now }
    ensures { LastRows rows levels.now last.old last.new }
{
    let mut ends = [0u16; 9];
    let mut behind = 0;
    for i in (0..rows).rev() {
        let l = octets::wide(levels[i]);
        last[i] = end_of(&mut ends, behind, l, i as u16);
        behind = l;
    }
}

// The first row at whose place the list does not have its last descendant.
pub fn wrong_last(levels: &[u8], rows: usize, last: &[u16]) -> Option<usize>
    requires { (rows ≤ length last.now) × Shallow rows levels.now }
    ensures { FirstWrong rows (LastRow rows levels.now) last.now result }
{
    let mut ends = [0u16; 9];
    let mut behind = 0;
    let mut wrong = None;
    for i in (0..rows).rev() {
        let l = octets::wide(levels[i]);
        let end = end_of(&mut ends, behind, l, i as u16);
        wrong = if last[i] == end { wrong } else { Some(i) };
        behind = l;
    }
    wrong
}
