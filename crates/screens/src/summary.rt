// A line of the types' screen: a type's label name and rows, and how many of its rows stand under a row of the type above.
ghost use Rattle.std.specs.Prelude.{◌+◌, ◌≤◌, length};
ghost use Rattle.io.specs.Counts.{IsPrefixLen};
ghost use Rattle.octets.specs.Served.{most_levels};
ghost use Rattle.adorned.specs.Told.{told};
ghost use Rattle.names.specs.Put.{Put};
ghost use Rattle.screens.specs.Screens.{rows_text, under_text, type_text};

use crate::words::{put_counted, put_indent, put_with_article};
use adorned::TypeSummary;
use names::names::put_name;
use names::put::{put_byte, put_bytes, put_number};

// The type's name and rows.
fn put_rows(out: &mut [u8], at: usize, s: TypeSummary) -> usize
    requires { (at + 62 ≤ length out.old) × (s.level ≤ most_levels) }
    ensures { Put out.old at (rows_text (told s)) out.new result × (result ≤ at + 62) }
{
    let indent = put_indent(out, at, s.level);
    let name = put_name(out, indent, s.label);
    let gap = put_byte(out, name, b' ');
    put_counted(out, gap, s.rows, b"row", b"rows")
}

// The least and the greatest number of children, and the name of the label above.
fn put_under(out: &mut [u8], at: usize, least: usize, greatest: usize, above: usize) -> usize
    requires { at + 74 ≤ length out.old }
    ensures { Put out.old at (under_text least greatest above) out.new result × (result ≤ at + 74) }
{
    let comma = put_bytes(out, at, b", ");
    let low = put_number(out, comma, least);
    let dots = put_bytes(out, low, b"..");
    let high = put_number(out, dots, greatest);
    let under = put_bytes(out, high, b" under ");
    put_with_article(out, under, above)
}

// The line of a type, at the front of the buffer; a root type stands under none.
pub fn put_type(out: &mut [u8; 256], s: TypeSummary, above: usize) -> usize
    requires { s.level ≤ most_levels }
    ensures put { Put out.old 0 (type_text (told s) above) out.new result }
    ensures prefix_len { IsPrefixLen result out.new }
{
    let rows = put_rows(out, 0, s);
    if s.level == 1 {
        return put_byte(out, rows, b'\n');
    }
    let under = put_under(out, rows, s.least, s.greatest, above);
    put_byte(out, under, b'\n')
}
