// A row of a table: its number, the labels above it and its value, or its fields as they stand.
ghost use Rattle.std.specs.Prelude.{◌≡◌, ◌≤◌, length};
ghost use Rattle.io.specs.Counts.{IsPrefixLen};
ghost use Rattle.paper.specs.Format.{row_bytes, entry_bytes};
ghost use Rattle.octets.specs.Served.{Served};
ghost use Rattle.names.specs.Put.{Put};
ghost use Rattle.facts.specs.Facts.{row_text, row_head, row_fields};

use crate::entry::{put_labels, put_named};
use listing::line::{put_dewey, put_list, put_value};
use names::put::{put_byte, put_bytes};
use paper::Format;

// A row's number, its Dewey number, the labels of its type and its value, at the front of the buffer. The type is held as an entry's
// record holds it.
pub fn put_row(out: &mut [u8; 512], r: usize, row: &[u8], held: &[u8], f: Format) -> usize
    requires served { Served f }
    requires row_len { (length row.now ≡ row_bytes f) × (entry_bytes f ≤ length held.now) }
    ensures put { Put out.old 0 (row_text f r row.now held.now) out.new result }
    ensures prefix_len { IsPrefixLen result out.new }
{
    let number = put_named(out, 0, b"row ", r);
    let colon = put_bytes(out, number, b": ");
    let dewey = put_dewey(out, colon, row, f);
    let comma = put_byte(out, dewey, b',');
    let labels = put_labels(out, comma, held, f);
    let word = put_bytes(out, labels, b", value ");
    let value = put_value(out, word, row, f);
    put_byte(out, value, b'\n')
}

// The fields that a row has before its Dewey number, at the front of the buffer.
fn put_row_head(out: &mut [u8; 512], r: usize, row: &[u8]) -> usize
    requires { 4 ≤ length row.now }
    ensures { Put out.old 0 (row_head r row.now) out.new result × (result ≤ 112) }
{
    let number = put_named(out, 0, b"row ", r);
    let level = put_named(out, number, b": level ", octets::wide(row[0]));
    let spare = put_named(out, level, b", zero byte ", octets::wide(row[1]));
    put_named(out, spare, b", label ", octets::word(row, 2))
}

// A row's fields as they stand, at the front of the buffer.
pub fn put_row_fields(out: &mut [u8; 512], r: usize, row: &[u8], f: Format) -> usize
    requires served { Served f }
    requires row_len { length row.now ≡ row_bytes f }
    ensures put { Put out.old 0 (row_fields f r row.now) out.new result }
    ensures prefix_len { IsPrefixLen result out.new }
{
    let head = put_row_head(out, r, row);
    let word = put_bytes(out, head, b", number ");
    let list = put_list(out, word, row, f.levels);
    let word2 = put_bytes(out, list, b", value ");
    let value = put_value(out, word2, row, f);
    put_byte(out, value, b'\n')
}
