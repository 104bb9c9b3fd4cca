// The words of a typed tree: a part is a label's name or its number, and a name is parts with single dots between them.
ghost use Rattle.std.specs.Prelude.{◌≡◌, ◌≤◌, ◌<◌, length, unwrap_or, IfSome};
ghost use Rattle.paper.specs.Lists.{same};
ghost use Rattle.octets.specs.Served.{Served};
ghost use Rattle.grammar.specs.Names.{named, name_of};
ghost use Rattle.grammar.specs.Reader.{label_of};
ghost use Rattle.names.specs.Word.{longest_name, Guessed, NamedBy, NumberOf, PartEnds, first_at, Reads};

use crate::names::name_bytes;
use paper::Format;

// A name as it was read: whether a dot leads, the number of its labels, and the first eight of them.
#[derive(Clone, Copy, Drop)]
pub struct Word {
    pub whole: bool,
    pub size: usize,
    pub labels: [u16; 8],
}

// Is the part the name of label k + 1?
fn is_name(part: &[u8], k: usize) -> bool
    requires { k < 20 }
    ensures { result ≡ same (name_of k) part.now }
{
    part == name_bytes(k)
}

// The name that a part may be, less one, told by its first byte and its length, and 20 where there is none: of the twenty names no two agree in this sum.
const GUESSES: [u8; 64] = [
    20, 20, 20, 4, 20, 16, 15, 8, 20, 20, 3, 18, 19, 20, 20, 20, 20, 20, 20, 20, 20, 2, 5, 20, 20,
    20, 13, 12, 20, 20, 20, 20, 20, 20, 20, 20, 6, 20, 9, 20, 20, 20, 1, 20, 20, 0, 20, 20, 20, 20,
    20, 14, 11, 20, 17, 10, 20, 20, 20, 20, 7, 20, 20, 20,
];

// The one name, less one, that has this first byte and this length.
fn guess(first: u8, size: usize) -> Option<usize>
    requires { size ≤ longest_name }
    ensures guessed { Guessed first size (unwrap_or result named) }
    ensures below { IfSome result (λ k. k < named) }
{
    let sum = octets::wide(first) + 21 * size;
    let k = octets::wide(GUESSES[sum % 64]);
    (k < 20).then_some(k)
}

// The label that has the part as its name.
fn by_name(part: &[u8]) -> Option<usize>
    ensures named { NamedBy part.now (unwrap_or result 0) }
    ensures above_0 { IfSome result (λ l. 0 < l) }
{
    if part.is_empty() || 9 < part.len() {
        return None;
    }
    let k = guess(part[0], part.len())?;
    is_name(part, k).then_some(k + 1)
}

// The number above 0 of at most five digits that the part spells without leading zeros.
fn by_number(part: &[u8]) -> Option<usize>
    ensures number { NumberOf part.now (unwrap_or result 0) }
    ensures above_0 { IfSome result (λ v. 0 < v) }
{
    if part.is_empty() || 5 < part.len() {
        return None;
    }
    let mut v = 0;
    for x in part {
        let b = octets::wide(*x);
        if b < 48 || 57 < b {
            return None;
        }
        v = 10 * v + (b - 48);
        if v == 0 {
            return None;
        }
    }
    Some(v)
}

// The label of a part, 0 for none: one of the twenty names, or a number from 21 to the largest label.
pub fn label_of(part: &[u8], f: Format) -> usize
    requires { Served f }
    ensures { result ≡ label_of f part.now }
{
    if let Some(named) = by_name(part) {
        return if f.labels < named { 0 } else { named };
    }
    let v = by_number(part).unwrap_or(0);
    if 20 < v && v <= f.labels { v } else { 0 }
}

// Where the part that begins at p ends: at the next dot, or with the word.
fn part_end(word: &[u8], p: usize) -> usize
    requires { p ≤ length word.now }
    ensures { PartEnds word.now p result }
{
    for q in p..word.len() {
        if word[q] == b'.' {
            return q;
        }
    }
    word.len()
}

// Where the first part begins: behind a leading dot.
fn first_at(word: &[u8]) -> usize
    ensures { result ≡ first_at word.now }
{
    if !word.is_empty() && word[0] == b'.' {
        1
    } else {
        0
    }
}

// The name that a word spells, if it spells one.
pub fn read_word(word: &[u8], f: Format) -> Option<Word>
    requires { Served f × (length word.now ≤ 1536) }
    ensures { Reads f word.now result }
{
    let start = first_at(word);
    let mut labels = [0u16; 8];
    let mut size = 0;
    let mut p = start;
    while p <= word.len() {
        let end = part_end(word, p);
        let label = label_of(&word[p..end], f);
        if label == 0 {
            return None;
        }
        if size < 8 {
            labels[size] = label as u16;
        }
        size += 1;
        p = end + 1;
    }
    Some(Word {
        whole: start == 1,
        size,
        labels,
    })
}
