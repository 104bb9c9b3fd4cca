// A line of the figures' screen: an entry's number, its label name, and its figures.
ghost use Rattle.std.specs.Prelude.{◌+◌, ◌≤◌, length};
ghost use Rattle.io.specs.Counts.{IsPrefixLen};
ghost use Rattle.octets.specs.Served.{most_levels};
ghost use Rattle.names.specs.Put.{Put};
ghost use Rattle.screens.specs.Screens.{counts_text, figures_text};

use crate::words::{put_counted, put_indent};
use names::names::put_name;
use names::put::{put_byte, put_bytes, put_number};

// An entry's figures: its lines, the source rows of its type, copies, and the different source rows in its lines.
#[derive(Clone, Copy, Drop)]
pub struct Figures {
    pub lines: usize,
    pub rows: usize,
    pub copies: usize,
    pub different: usize,
}

// The figures with their words.
fn put_counts(out: &mut [u8], at: usize, f: Figures) -> usize
    requires { at + 122 ≤ length out.old }
    ensures put { Put out.old at (counts_text f.lines f.rows f.copies f.different) out.new result }
    ensures upper_bound { result ≤ at + 122 }
{
    let lines = put_counted(out, at, f.lines, b"line", b"lines");
    let comma = put_bytes(out, lines, b", ");
    let rows = put_counted(out, comma, f.rows, b"row", b"rows");
    let comma2 = put_bytes(out, rows, b", ");
    let copies = put_counted(out, comma2, f.copies, b"copy", b"copies");
    let comma3 = put_bytes(out, copies, b", ");
    put_counted(
        out,
        comma3,
        f.different,
        b"different row",
        b"different rows",
    )
}

// The line of an entry's figures, at the front of the buffer.
pub fn put_figures(
    out: &mut [u8; 256],
    level: usize,
    entry: usize,
    label: usize,
    f: Figures,
) -> usize
    requires { level ≤ most_levels }
    ensures put { Put out.old 0 (figures_text level entry label f.lines f.rows f.copies f.different) out.new result }
    ensures prefix_len { IsPrefixLen result out.new }
{
    let indent = put_indent(out, 0, level);
    let number = put_number(out, indent, entry);
    let gap = put_byte(out, number, b' ');
    let name = put_name(out, gap, label);
    let colon = put_bytes(out, name, b": ");
    let counts = put_counts(out, colon, f);
    put_byte(out, counts, b'\n')
}
