// One line written: its record into the lent bytes.
ghost use Rattle.std.specs.Prelude.{◌≡◌, ◌+◌, ◌≤◌, length, set};
ghost use Rattle.std.proofs.lemmas.List.Edits.{sets};
ghost use Rattle.paper.specs.Lists.{join_map};
ghost use Rattle.paper.specs.Format.{value_bytes, span, bytes};
ghost use Rattle.lines.specs.Put.{LineFits, with_line};

use paper::Format;

// The eight places of a Dewey number.
fn put_number(new: &mut [u8], at: usize, number: [u16; 8])
    requires { at + 16 ≤ length new.old }
    ensures { new.new ≡ sets new.old at (join_map (bytes 2) number) }
{
    for k in 0..8 {
        octets::put_word(new, at + 2 * k, number[k]);
    }
}

// The eight bytes of a value, by value: they are read before any byte of the line is written.
fn value_at(table: &[u8], at: usize) -> [u8; 8]
    requires { at + value_bytes ≤ length table.now }
    ensures { result ≡ span value_bytes table.now at }
{
    [
        table[at],
        table[at + 1],
        table[at + 2],
        table[at + 3],
        table[at + 4],
        table[at + 5],
        table[at + 6],
        table[at + 7],
    ]
}

// Byte by byte: with `copy_from_slice` a reshape takes some 6 percent more instructions.
fn put_value(new: &mut [u8], at: usize, value: [u8; 8])
    requires { at + value_bytes ≤ length new.old }
    ensures { new.new ≡ sets new.old at value }
{
    for k in 0..8 {
        new[at + k] = value[k];
    }
}

// The record of a line: level, label, the upper line's number with the line's position at place `at`, and the value of source row r.
// The position has a store of its own, since storing it into the number and then reading that whole stalls the processor. All eight places
// of the number are put, since a number of places known beforehand is quicker; the value is put over those past the levels.
pub fn put_line(
    table: &[u8],
    f: Format,
    new: &mut [u8],
    place: usize,
    level: u8,
    label: u16,
    number: [u16; 8],
    at: usize,
    position: u16,
    r: usize,
)
    requires { LineFits f table.now new.old place at r }
    ensures { new.new ≡ with_line f table.now new.old place level label (set number at position) r }
{
    let width = octets::row_bytes(f);
    let value = value_at(table, width * r + width - 8);
    let start = width * place;
    new[start] = level;
    new[start + 1] = 0;
    octets::put_word(new, start + 2, label);
    put_number(new, start + 4, number);
    octets::put_word(new, start + 4 + 2 * at, position);
    put_value(new, start + width - 8, value);
}
