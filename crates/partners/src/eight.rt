// Eight edges walked at once: each has a place of its own in every array of eight, so that what is done for one is done for all.
ghost use Rattle.std.specs.Prelude.{◌≡◌, ℕ, ◌+◌, ◌≤◌, ◌<◌, length, get_or};
ghost use Rattle.closest.specs.Runs.{Rows};
ghost use Rattle.partners.specs.Eight.{places, Eights, nothing, ended, fewer, more, first_end, onward, single};
ghost use Rattle.partners.specs.Eight.{Closes, Within, Few, CountsDeep, LevelAt, WalkedAll};

// What is found of eight edges. 65,535 stands for the least of no numbers, and for no end.
#[derive(Clone, Copy, Drop)]
pub struct Eight {
    pub least_children: [u16; 8],
    pub greatest_children: [u16; 8],
    pub least_parents: [u16; 8],
    pub greatest_parents: [u16; 8],
    pub lone: [u16; 8], // the row at which the first run ends that has a row of the child's type and none of the parent's
}

// What is found of no rows.
pub fn nothing() -> Eight
    ensures { result ≡ nothing }
{
    Eight {
        least_children: [65535; 8],
        greatest_children: [0; 8],
        least_parents: [65535; 8],
        greatest_parents: [0; 8],
        lone: [65535; 8],
    }
}

// What is put at each place for the three numbers that stand there. A closure here only chooses between numbers, with no other effect, so that
// the eight places are done at once.
fn each<F: Fn(u16, u16, u16) -> u16>(a: [u16; 8], b: [u16; 8], c: [u16; 8], put: F) -> [u16; 8]
    requires { (e : ℕ) → e < places → F.pre put (get_or a e 0) (get_or b e 0) (get_or c e 0) }
    ensures { (e : ℕ) → e < places → F.post put (get_or a e 0) (get_or b e 0) (get_or c e 0) (get_or result e 0) }
{
    let mut all = a;
    for e in 0..8 {
        all[e] = put(a[e], b[e], c[e]);
    }
    all
}

// How many rows were counted in the runs that a row of this level ends, 0 for those that go on.
fn ended(counts: [u16; 8], bounds: [u16; 8], level: u16) -> [u16; 8]
    ensures { Eights (λ e. ended (get_or bounds e 0) level (get_or counts e 0)) result }
{
    each(
        counts,
        bounds,
        counts,
        |count, bound, _| if level <= bound { count } else { 0 },
    )
}

// The lesser of the two, where any row has this number.
fn fewest(least: [u16; 8], numbers: [u16; 8], counts: [u16; 8]) -> [u16; 8]
    ensures { Eights (λ e. fewer (get_or least e 0) (get_or numbers e 0) (get_or counts e 0)) result }
{
    each(least, numbers, counts, |m, number, count| {
        let n = if count == 0 { 65535 } else { number };
        if n < m { n } else { m }
    })
}

// The greater of the two, where any row has this number.
fn greatest(most: [u16; 8], numbers: [u16; 8], counts: [u16; 8]) -> [u16; 8]
    ensures { Eights (λ e. more (get_or most e 0) (get_or numbers e 0) (get_or counts e 0)) result }
{
    each(most, numbers, counts, |m, number, count| {
        let n = if count == 0 { 0 } else { number };
        if m < n { n } else { m }
    })
}

// The first end of a run that has children and no parents, of which row i is one where the run that it ends is such.
fn first_end(lone: [u16; 8], parents: [u16; 8], children: [u16; 8], i: u16) -> [u16; 8]
    ensures { Eights (λ e. first_end (get_or lone e 0) (get_or parents e 0) (get_or children e 0) i) result }
{
    each(lone, parents, children, |m, over, own| {
        let n = if own == 0 { 65535 } else { i };
        let end = if over == 0 { n } else { 65535 };
        if end < m { end } else { m }
    })
}

// The rows counted after a row of this type and level: a run that it begins is counted from it on.
fn count_on(counts: [u16; 8], wanted: [u16; 8], bounds: [u16; 8], k: u16, level: u16) -> [u16; 8]
    requires { (e : ℕ) → e < places → get_or counts e 0 < 65535 }
    ensures { Eights (λ e. onward (get_or bounds e 0) level (get_or wanted e 0) k (get_or counts e 0)) result }
{
    each(counts, wanted, bounds, |count, sought, bound| {
        let before = if level <= bound { 0 } else { count };
        let own = if sought == k { 1 } else { 0 };
        before + own
    })
}

// The runs that row i, of this level, ends: each row of the parent's type in one has all its rows of the child's type, and the other way
// round.
fn close(
    found: Eight,
    parents: [u16; 8],
    children: [u16; 8],
    bounds: [u16; 8],
    level: u16,
    i: u16,
) -> Eight
    ensures { Closes found parents children bounds level i result }
{
    let with_parents = ended(parents, bounds, level);
    let with_children = ended(children, bounds, level);
    Eight {
        least_children: fewest(found.least_children, children, with_parents),
        greatest_children: greatest(found.greatest_children, children, with_parents),
        least_parents: fewest(found.least_parents, parents, with_children),
        greatest_parents: greatest(found.greatest_parents, parents, with_children),
        lone: first_end(found.lone, parents, with_children, i),
    }
}

// The rows counted so far, and the row that comes next.
#[derive(Clone, Copy, Drop)]
pub struct Counts {
    pub parents: [u16; 8],
    pub children: [u16; 8],
    pub row: usize,
}

// The rows counted after a row of this type that begins no run.
fn add_own(counts: [u16; 8], wanted: [u16; 8], k: u16) -> [u16; 8]
    requires { (e : ℕ) → e < places → get_or counts e 0 < 65535 }
    ensures { Eights (λ e. get_or counts e 0 + single (get_or wanted e 0) k) result }
{
    each(counts, wanted, counts, |count, sought, _| {
        let own = if sought == k { 1 } else { 0 };
        count + own
    })
}

// The greatest of the eight bounds: a deeper row begins no run.
fn deepest(bounds: [u16; 8]) -> u16
    ensures { Within bounds result }
{
    let mut most = 0;
    for bound in bounds {
        most = most.max(bound);
    }
    most
}

// The rows from the next one on that are deeper than every bound end no run: they are only counted.
fn count_deep(
    levels: &[u8],
    types: &[u8],
    rows: usize,
    at: Counts,
    over: [u16; 8],
    own: [u16; 8],
    bound: u16,
) -> Counts
    requires { Rows rows levels.now types.now × Few rows at }
    ensures { CountsDeep levels.now types.now rows over own bound at result }
{
    let mut now = at;
    for row in at.row..rows {
        if levels[row] as u16 <= bound {
            break;
        }
        let k = types[row] as u16;
        let parents = add_own(now.parents, over, k);
        let children = add_own(now.children, own, k);
        now = Counts {
            parents,
            children,
            row: row + 1,
        };
    }
    now
}

// A row's level; past the last row 0, which ends every run.
fn level_at(levels: &[u8], rows: usize, i: usize) -> u16
    requires { rows ≤ length levels.now }
    ensures { LevelAt levels.now rows i result }
{
    if i < rows { levels[i] as u16 } else { 0 }
}

// Eight edges, of whose runs each begins at the rows up to its bound, between the types `over`, of the parents, and `own`, of the children:
// one walk, run by run. After the last row all runs end. Runs are closed at one place of the loop: at two, what is found so far would go
// through memory at each row.
pub fn walk_eight(
    levels: &[u8],
    types: &[u8],
    rows: usize,
    bounds: [u16; 8],
    over: [u16; 8],
    own: [u16; 8],
) -> Eight
    requires { Rows rows levels.now types.now }
    ensures { WalkedAll levels.now types.now rows bounds over own result }
{
    let bound = deepest(bounds);
    let mut found = nothing();
    let mut parents = [0u16; 8];
    let mut children = [0u16; 8];
    let mut i = 0;
    loop {
        let level = level_at(levels, rows, i);
        let closed = close(found, parents, children, bounds, level, i as u16);
        if rows <= i {
            return closed;
        }
        found = closed;
        let k = types[i] as u16;
        let begun = Counts {
            parents: count_on(parents, over, bounds, k, level),
            children: count_on(children, own, bounds, k, level),
            row: i + 1,
        };
        let next = count_deep(levels, types, rows, begun, over, own, bound);
        parents = next.parents;
        children = next.children;
        i = next.row;
    }
}
