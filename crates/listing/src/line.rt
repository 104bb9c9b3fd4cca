// A line of the listing: Dewey number, entry, label name, source row, value.
ghost use Rattle.std.specs.Prelude.{◌≡◌, ◌+◌, ◌*◌, ◌≤◌, ◌<◌, map, length};
ghost use Rattle.io.specs.Counts.{IsPrefixLen};
ghost use Rattle.paper.specs.Format.{row_bytes, words, signed};
ghost use Rattle.paper.specs.Tables.{row_of, dewey};
ghost use Rattle.octets.specs.Served.{Served, most_levels};
ghost use Rattle.grammar.specs.Text.{dot, decimal, signed_text, followed};
ghost use Rattle.listing.specs.Listing.{dewey_text, line_text};
ghost use Rattle.names.specs.Put.{Put};

use names::names::put_name;
use names::put::{put_after, put_byte, put_number};
use paper::Format;

// The numbers after the first of the list that a record holds, n of them, each with a dot before it.
fn put_further(out: &mut [u8], at: usize, held: &[u8], n: usize) -> usize
    requires { (at + 147 ≤ length out.old) × (6 + 2 * n ≤ length held.now) × (n < most_levels) }
    ensures { Put out.old at (followed dot (map decimal (words n held.now 6))) out.new result × (result ≤ at + 147) }
{
    let mut p = at;
    for k in 0..n {
        p = put_after(out, p, b'.', octets::word(held, 6 + 2 * k));
    }
    p
}

// The first n numbers of that list, a dot between them.
pub fn put_list(out: &mut [u8], at: usize, held: &[u8], n: usize) -> usize
    requires { (at + 167 ≤ length out.old) × (4 + 2 * n ≤ length held.now) × (n ≤ most_levels) }
    ensures { Put out.old at (dewey_text (words n held.now 4)) out.new result × (result ≤ at + 167) }
{
    if n == 0 {
        return at;
    }
    let first = put_number(out, at, octets::word(held, 4));
    put_further(out, first, held, n - 1)
}

// A row's Dewey number: as many components as its level, a dot between them.
pub fn put_dewey(out: &mut [u8], at: usize, row: &[u8], f: Format) -> usize
    requires served { Served f }
    requires at_in_bounds { (at + 167 ≤ length out.old) × (length row.now ≡ row_bytes f) }
    ensures { Put out.old at (dewey_text (dewey (row_of f row.now))) out.new result × (result ≤ at + 167) }
{
    let n = octets::wide(row[0]).min(f.levels);
    put_list(out, at, row, n)
}

// A row's value, signed, which stands after its components. Below 0 its size is what the bits lack of 2^64, which holds of the least value too.
pub fn put_value(out: &mut [u8], at: usize, row: &[u8], f: Format) -> usize
    requires served { Served f }
    requires at_in_bounds { (at + 21 ≤ length out.old) × (length row.now ≡ row_bytes f) }
    ensures { Put out.old at (signed_text (signed (row_of f row.now).value)) out.new result × (result ≤ at + 21) }
{
    let from = octets::entry_bytes(f);
    let bits = octets::long(row, from);
    if bits < 9223372036854775808 {
        put_number(out, at, bits)
    } else {
        put_after(out, at, b'-', 18446744073709551615 - bits + 1)
    }
}

// The line of a new table's record and its place in the source list, at the front of the buffer.
pub fn put_line(out: &mut [u8; 256], row: &[u8], f: Format, source: u32) -> usize
    requires served { Served f }
    requires row_len { length row.now ≡ row_bytes f }
    ensures put { Put out.old 0 (line_text f row.now source) out.new result }
    ensures prefix_len { IsPrefixLen result out.new }
{
    let from = source as usize;
    let dewey = put_dewey(out, 0, row, f);
    let entry = put_after(out, dewey, b' ', from / 65536);
    let gap = put_byte(out, entry, b' ');
    let name = put_name(out, gap, octets::word(row, 2));
    let origin = put_after(out, name, b' ', from % 65536);
    let gap2 = put_byte(out, origin, b' ');
    let value = put_value(out, gap2, row, f);
    put_byte(out, value, b'\n')
}
