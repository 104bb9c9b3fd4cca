// The list of pairs: which pair has a label, and what a label becomes.
ghost use Rattle.std.specs.Prelude.{◌≡◌, ◌<◌, ◌≤◌, length, get_or, take};
ghost use Rattle.std.specs.List.{position};
ghost use Rattle.paper.specs.Labels.{pairs, converted, unlisted};
ghost use Rattle.labels.specs.Pairs.{has};

use paper::Format;

// Number k of the list, zero past its end.
pub fn number_at(list: &[u16], k: usize) -> usize
    ensures { (result ≡ get_or list.now k 0) × (result < 65536) }
{
    if k < list.len() {
        octets::wide16(list[k])
    } else {
        0
    }
}

// The number of pairs, half pairs too.
pub fn count_pairs(list: &[u16]) -> usize
    ensures { result ≡ length (pairs list.now) }
{
    let numbers = list.len();
    numbers / 2 + numbers % 2
}

// The first of the first n pairs that has x as its old label (side 0) or as its new one (side 1).
pub fn find(list: &[u16], n: usize, side: usize, x: usize) -> Option<usize>
    requires { (n ≤ length (pairs list.now)) × (side ≤ 1) }
    ensures { result ≡ position (has side x) (take n (pairs list.now)) }
{
    (0..n).position(|i| number_at(list, 2 * i + side) == x)
}

// What a label becomes.
pub fn convert_label(list: &[u16], x: usize) -> usize
    requires { x < 65536 }
    ensures { (result ≡ converted (pairs list.now) x) × (result < 65536) }
{
    match find(list, count_pairs(list), 0, x) {
        Some(i) => number_at(list, 2 * i + 1),
        None => x,
    }
}

// Is a label above the largest, and not in the list?
pub fn is_unlisted(list: &[u16], f: Format, x: usize) -> bool
    ensures { result ≡ unlisted f (pairs list.now) x }
{
    f.labels < x && find(list, count_pairs(list), 0, x).is_none()
}
