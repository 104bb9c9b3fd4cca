// An entry of a shape: its type by label names, or its fields as they stand.
ghost use Rattle.std.specs.Prelude.{◌≡◌, ◌++◌, ◌+◌, ◌*◌, ◌≤◌, length};
ghost use Rattle.io.specs.Counts.{IsPrefixLen};
ghost use Rattle.paper.specs.Format.{entry_bytes, words};
ghost use Rattle.octets.specs.Served.{Served, most_levels};
ghost use Rattle.grammar.specs.Text.{decimal};
ghost use Rattle.names.specs.Put.{Put};
ghost use Rattle.facts.specs.Facts.{names_text, labels_text, entry_text, entry_head, entry_fields};

use listing::line::put_list;
use names::names::put_name;
use names::put::{put_byte, put_bytes, put_number};
use paper::Format;

// The names of the first n labels of an entry's record, a space before each.
fn put_names(out: &mut [u8], at: usize, entry: &[u8], n: usize) -> usize
    requires { (at + 168 ≤ length out.old) × (4 + 2 * n ≤ length entry.now) × (n ≤ most_levels) }
    ensures { Put out.old at (names_text (words n entry.now 4)) out.new result × (result ≤ at + 168) }
{
    let mut p = at;
    for k in 0..n {
        let gap = put_byte(out, p, b' ');
        p = put_name(out, gap, octets::word(entry, 4 + 2 * k));
    }
    p
}

// The names of the labels of an entry's type.
pub fn put_labels(out: &mut [u8], at: usize, entry: &[u8], f: Format) -> usize
    requires served { Served f }
    requires at_in_bounds { (at + 168 ≤ length out.old) × (entry_bytes f ≤ length entry.now) }
    ensures { Put out.old at (labels_text f entry.now) out.new result × (result ≤ at + 168) }
{
    let n = octets::wide(entry[1]).min(f.levels);
    put_names(out, at, entry, n)
}

// A text, and a number after it.
pub fn put_named(out: &mut [u8], at: usize, text: &[u8], n: usize) -> usize
    requires { at + length text.now + 20 ≤ length out.old }
    ensures { Put out.old at (text.now ++ decimal n) out.new result × (result ≤ at + length text.now + 20) }
{
    let p = put_bytes(out, at, text);
    put_number(out, p, n)
}

// An entry's number and the labels of its type, at the front of the buffer.
pub fn put_entry(out: &mut [u8; 512], e: usize, entry: &[u8], f: Format) -> usize
    requires served { Served f }
    requires len { length entry.now ≡ entry_bytes f }
    ensures put { Put out.old 0 (entry_text f e entry.now) out.new result }
    ensures prefix_len { IsPrefixLen result out.new }
{
    let number = put_named(out, 0, b"entry ", e);
    let gap = put_byte(out, number, b':');
    let labels = put_labels(out, gap, entry, f);
    put_byte(out, labels, b'\n')
}

// The fields that an entry has before its labels, at the front of the buffer.
fn put_entry_head(out: &mut [u8; 512], e: usize, entry: &[u8]) -> usize
    requires { 4 ≤ length entry.now }
    ensures { Put out.old 0 (entry_head e entry.now) out.new result × (result ≤ 128) }
{
    let number = put_named(out, 0, b"entry ", e);
    let level = put_named(out, number, b": level ", octets::wide(entry[0]));
    let size = put_named(out, level, b", length of its type ", octets::wide(entry[1]));
    put_named(out, size, b", zero bytes ", octets::word(entry, 2))
}

// An entry's fields as they stand, at the front of the buffer.
pub fn put_entry_fields(out: &mut [u8; 512], e: usize, entry: &[u8], f: Format) -> usize
    requires served { Served f }
    requires len { length entry.now ≡ entry_bytes f }
    ensures put { Put out.old 0 (entry_fields f e entry.now) out.new result }
    ensures prefix_len { IsPrefixLen result out.new }
{
    let head = put_entry_head(out, e, entry);
    let word = put_bytes(out, head, b", labels ");
    let labels = put_list(out, word, entry, f.levels);
    put_byte(out, labels, b'\n')
}
