// What a case asks for, read from its head.
ghost use Rattle.std.specs.Prelude.{◌≡◌, ◌<◌, length};

use crate::lent::record_bytes;
use silmezga::Width;

// What a case asks for beside its table, its shapes and its text: the width and the number that says it to C, the row to look up, the summaries
// lent, the bytes and the places lent for a reshape, the bytes lent for the table and for the shape in the other width or with their labels
// converted, the bytes lent for the shape of a text and for the line of the shape, and whether there is an index.
#[derive(Clone, Copy, Drop)]
pub struct Ask {
    pub width: Width,
    pub said: u32,
    pub row: usize,
    pub summaries: usize,
    pub bytes: usize,
    pub places: usize,
    pub for_table: usize,
    pub for_shape: usize,
    pub for_tree: usize,
    pub for_line: usize,
    pub indexed: bool,
}

fn width_of(levels: usize) -> Width {
    match levels {
        8 => Width::Eight,
        _ => Width::Six,
    }
}

// The bytes of so many records of a table, and of those past them.
#[tactic(auto, using(crate::proofs::Fits::records_few))]
fn bytes_lent(width: Width, records: usize, past: usize) -> usize
    requires { (records < 65536) × (past < 256) }
{
    record_bytes(width) * records + past
}

// The number that says the width to C: 255 stands for the greatest there is.
fn number_said(levels: u8) -> u32 {
    match levels {
        255 => u32::MAX,
        _ => u32::from(levels),
    }
}

pub fn asked(head: &[u8]) -> Ask
    requires { length head.now ≡ 40 }
{
    let levels = octets::wide(head[22]);
    let width = width_of(levels);
    Ask {
        width,
        said: number_said(head[22]),
        row: octets::long(head, 6),
        summaries: octets::wide(head[17]),
        bytes: bytes_lent(width, octets::word(head, 14), octets::wide(head[16])),
        places: octets::word(head, 18),
        for_table: octets::word(head, 23),
        for_shape: octets::word(head, 25),
        for_tree: octets::word(head, 31),
        for_line: octets::word(head, 33),
        indexed: head[35] != 0,
    }
}
