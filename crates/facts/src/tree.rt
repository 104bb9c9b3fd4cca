// A typed tree on one line, with a mark under a place of it.
ghost use Rattle.std.specs.Prelude.{◌≡◌, map, ◌+◌, ◌≤◌, length, replicate};
ghost use Rattle.io.specs.Counts.{IsPrefixLen};
ghost use Rattle.grammar.specs.Text.{space};
ghost use Rattle.names.specs.Put.{Put};
ghost use Rattle.facts.specs.Typed.{shown, marked_text};

use names::put::{put_byte, put_bytes};

// A byte as it is shown.
#[tactic(auto, unfolding(crate::specs::Typed::shown))]
fn shown(b: u8) -> u8
    ensures { result ≡ shown b }
{
    if b < 32 || 126 < b { b'?' } else { b }
}

// A text as it is shown.
fn put_shown(out: &mut [u8], at: usize, text: &[u8]) -> usize
    requires { at + length text.now ≤ length out.old }
    ensures { Put out.old at (map shown text.now) out.new result × (result ≡ at + length text.now) }
{
    let mut p = at;
    for x in text {
        p = put_byte(out, p, shown(*x));
    }
    p
}

// As many spaces.
fn put_spaces(out: &mut [u8], at: usize, n: usize) -> usize
    requires { at + n ≤ length out.old }
    ensures { Put out.old at (replicate n space) out.new result × (result ≡ at + n) }
{
    out[at..at + n].fill(b' ');
    at + n
}

// The text as it is shown, and below it a mark at the place, at the front of the buffer.
pub fn put_marked(out: &mut [u8; 4096], text: &[u8], place: usize) -> usize
    requires { (length text.now ≤ 1536) × (place ≤ 1536) }
    ensures put { Put out.old 0 (marked_text text.now place) out.new result }
    ensures prefix_len { IsPrefixLen result out.new }
{
    let word = put_bytes(out, 0, b"tree: ");
    let line = put_shown(out, word, text);
    let below = put_byte(out, line, b'\n');
    let gap = put_spaces(out, below, 6 + place);
    put_bytes(out, gap, b"^\n")
}
