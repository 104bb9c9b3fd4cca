// One entry of a shape: the entry rules, and the first entry that breaks one.
ghost use Rattle.std.specs.Prelude.{◌≡◌, ◌≤◌, ◌<◌, IfSome, length, take};
ghost use Rattle.paper.specs.Lists.{all, between};
ghost use Rattle.paper.specs.Format.{entry_bytes, words, whole};
ghost use Rattle.paper.specs.Shapes as Shapes;
ghost use Rattle.paper.specs.Shapes.{entry_of, level_kept, entry_kept, bad_entry};
ghost use Rattle.paper.specs.Refusals.{found};

use paper::Format;

// Are the first `size` labels of an entry labels of the format?
fn labels_within(entry: &[u8], f: Format, size: usize) -> bool
    requires { (entry_bytes f ≤ length entry.now) × (size ≤ f.levels) × (f.levels ≤ 255) }
    ensures { result ≡ all (λ x. between 1 x f.labels) (take size (words f.levels entry.now 4)) }
{
    (0..size).all(|k| {
        let a = tables::row::component(entry, f, k);
        1 <= a && a <= f.labels
    })
}

// May an entry of this level stand after one of level `before`, 0 where there is none before it?
fn level_kept(before: usize, level: usize) -> bool
    requires { before ≤ 255 }
    ensures { result ≡ level_kept before level }
{
    if before == 0 {
        level == 1
    } else {
        2 <= level && level <= before + 1
    }
}

// Does an entry keep the rules after one of level `before`?
#[tactic(auto, unfolding(paper::specs::Shapes::entry_kept, paper::specs::Shapes::entry_of))]
fn entry_kept(entry: &[u8], f: Format, before: usize) -> bool
    requires { (length entry.now ≡ entry_bytes f) × (f.levels ≤ 255) × (before ≤ 255) }
    ensures { result ≡ entry_kept f before (entry_of f entry.now) }
{
    let level = octets::wide(entry[0]);
    let size = octets::wide(entry[1]);
    1 <= level
        && level <= f.levels
        && 1 <= size
        && size <= f.levels
        && octets::word(entry, 2) == 0
        && labels_within(entry, f, size)
        && tables::row::zeros_from(entry, f, size)
        && level_kept(before, level)
}

// The first entry that breaks a rule.
pub fn bad_entry(shape: &[u8], f: Format, entries: usize) -> Option<usize>
    requires { (entries ≡ whole (entry_bytes f) shape.now) × (f.levels ≤ 255) }
    ensures { (found result ≡ bad_entry f (Shapes.entries f shape.now)) × IfSome result (λ e. e < entries) }
{
    let w = octets::entry_bytes(f);
    let mut before = 0;
    for e in 0..entries {
        let entry = octets::record(shape, w, e);
        if !entry_kept(entry, f, before) {
            return Some(e);
        }
        before = octets::wide(entry[0]);
    }
    None
}
