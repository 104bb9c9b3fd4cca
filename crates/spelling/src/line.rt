// The line of a shape, part by part.
ghost use Rattle.std.specs.Prelude.{◌≡◌, ◌+◌, ◌≤◌, length, take};
ghost use Rattle.paper.specs.Format.{entry_bytes, words};
ghost use Rattle.octets.specs.Served.{Served, most_levels};
ghost use Rattle.names.specs.Put.{Put};
ghost use Rattle.spelling.specs.Line.{path_text, brackets_text, shape_line, Passed};

use names::names::put_name;
use names::put::{put_byte, put_bytes};
use paper::Format;
use tables::row::component;

// The names of the first n labels of an entry's record, a dot before each.
fn put_path(out: &mut [u8], at: usize, entry: &[u8], f: Format, n: usize) -> usize
    requires { Served f × (length entry.now ≡ entry_bytes f) × (n ≤ f.levels) × (at + 91 ≤ length out.old) }
    ensures { Put out.old at (path_text (take n (words f.levels entry.now 4))) out.new result × (result ≤ at + 80) }
{
    let mut p = at;
    for k in 0..n {
        let gap = put_byte(out, p, b'.');
        p = put_name(out, gap, component(entry, f, k));
    }
    p
}

// What stands between an entry of level l and the next, of level m.
fn put_brackets(out: &mut [u8], at: usize, l: usize, m: usize) -> usize
    requires { (l ≤ most_levels) × (1 ≤ m) × (at + 14 ≤ length out.old) }
    ensures { Put out.old at (brackets_text l m) out.new result × (result ≤ at + 14) }
{
    if l < m {
        return put_bytes(out, at, b" [");
    }
    let mut p = at;
    for _k in m..l {
        p = put_bytes(out, p, b" ]");
    }
    p
}

// The whole line, at the front of the buffer: an entry and what stands before it take 95 bytes at the most.
pub fn put_line(out: &mut [u8; 1536], shape: &[u8], f: Format, entries: usize) -> usize
    requires { Passed f shape.now entries }
    ensures { Put out.old 0 (shape_line f shape.now) out.new result × (result ≤ 1536) }
{
    let w = octets::entry_bytes(f);
    let first = octets::record(shape, w, 0);
    let mut p = put_path(out, 0, first, f, octets::wide(first[1]));
    let mut level = octets::wide(first[0]);
    for e in 1..entries {
        let entry = octets::record(shape, w, e);
        let next = octets::wide(entry[0]);
        let behind = put_brackets(out, p, level, next);
        let gap = put_byte(out, behind, b' ');
        p = put_path(out, gap, entry, f, octets::wide(entry[1]));
        level = next;
    }
    put_brackets(out, p, level, 1)
}
