// The parts that lines are made of: counts with their words, indents, articles.
ghost use Rattle.std.specs.Prelude.{◌≡◌, ◌+◌, ◌≤◌, length};
ghost use Rattle.paper.specs.Lists.{first_or};
ghost use Rattle.octets.specs.Served.{most_levels};
ghost use Rattle.grammar.specs.Names.{name_text};
ghost use Rattle.names.specs.Put.{Put};
ghost use Rattle.screens.specs.Screens.{counted, indent, vowel, article, with_article};

use names::names::{name_bytes, put_name};
use names::put::{put_byte, put_bytes, put_number};

// A number and the word for what is counted: `one` for 1, `more`, which is no shorter, for any other.
pub fn put_counted(out: &mut [u8], at: usize, n: usize, one: &[u8], more: &[u8]) -> usize
    requires { (at + 21 + length more.now ≤ length out.old) × (length one.now ≤ length more.now) }
    ensures put { Put out.old at (counted n one.now more.now) out.new result }
    ensures upper_bound { result ≤ at + 21 + length more.now }
{
    let number = put_number(out, at, n);
    let gap = put_byte(out, number, b' ');
    put_bytes(out, gap, if n == 1 { one } else { more })
}

// Two spaces for each level below the first.
pub fn put_indent(out: &mut [u8], at: usize, level: usize) -> usize
    requires { (at + 14 ≤ length out.old) × (level ≤ most_levels) }
    ensures { Put out.old at (indent level) out.new result × (result ≤ at + 14) }
{
    let mut p = at;
    for _l in 1..level {
        p = put_bytes(out, p, b"  ");
    }
    p
}

// Whether a byte is a, e, i, o or u.
fn is_vowel(b: u8) -> bool
    ensures { result ≡ vowel b }
{
    b"aeiou".contains(&b)
}

// Whether a label's name begins with one of them; a number begins with a digit.
fn vowel_first(label: usize) -> bool
    ensures { result ≡ vowel (first_or 0 (name_text label)) }
{
    if label < 1 || 20 < label {
        return false;
    }
    let name = name_bytes(label - 1);
    is_vowel(name[0])
}

// The article of a label's name.
fn put_article(out: &mut [u8], at: usize, label: usize) -> usize
    requires { at + 2 ≤ length out.old }
    ensures { Put out.old at (article (name_text label)) out.new result × (result ≤ at + 2) }
{
    if vowel_first(label) {
        put_bytes(out, at, b"an")
    } else {
        put_bytes(out, at, b"a")
    }
}

// A label's name with its article before it.
pub fn put_with_article(out: &mut [u8], at: usize, label: usize) -> usize
    requires { at + 23 ≤ length out.old }
    ensures { Put out.old at (with_article (name_text label)) out.new result × (result ≤ at + 23) }
{
    let article = put_article(out, at, label);
    let gap = put_byte(out, article, b' ');
    put_name(out, gap, label)
}
