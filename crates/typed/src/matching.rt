// The one type of a table that a name matches. Types are told by their parents and last labels, so a name is compared from its last label upwards.
ghost use Rattle.std.specs.Prelude.{◌≤◌, ◌<◌, length, take};
ghost use Rattle.paper.specs.Format.{most_types};
ghost use Rattle.grammar.specs.Grammar.{Name};
ghost use Rattle.names.specs.Word.{Holds};
ghost use Rattle.typed.specs.Matching.{Ends, Sole};

use names::word::Word;

// Does the listed type k end with the name's labels, or has it no others where the name is whole?
fn type_matches<'a>(
    name: &[u16],
    size: usize,
    whole: bool,
    parents: &'a [u8],
    labels: &'a [u16],
    count: usize,
    k: usize,
) -> bool
    requires { (size ≤ length name.now) × (count ≤ length parents.now) × (count ≤ length labels.now) × (k < count) }
    ensures { Ends parents.now labels.now count (record { whole = whole; labels = take size name.now }) k result }
{
    let mut q = k;
    for j in (0..size).rev() {
        if count <= q || labels[q] != name[j] {
            return false;
        }
        q = octets::wide(parents[q]);
    }
    !whole || count <= q
}

// The number of the one type that a name matches, 64 where it matches none or several. A name of more than eight labels matches none.
// Kept: a number, 64 for none: tried as an Option, and it misses a bar of speed, since the walk over the types carries its tag.
pub fn match_type<'a>(name: Word, parents: &'a [u8], labels: &'a [u16], count: usize) -> usize
    requires { (count ≤ length parents.now) × (count ≤ length labels.now) × (count ≤ most_types) }
    ensures sole { (n : Name) → Holds name n → Sole parents.now labels.now count n result }
    ensures upper_bound { result ≤ most_types }
{
    let size = name.size;
    if 8 < size {
        return 64;
    }
    let mut found = 64;
    for k in 0..count {
        if type_matches(&name.labels, size, name.whole, parents, labels, count, k) {
            if found < 64 {
                return 64;
            }
            found = k;
        }
    }
    found
}
