// Reshaping, with what it is lent: bytes and places are filled before the call, so that what it leaves in each can be told.
ghost use Rattle.std.specs.Prelude.{◌≡◌, ◌≤◌, ◌<◌, length};
ghost use Rattle.paper.specs.Format.{row_bytes};
ghost use Rattle.paper.specs.Widths.{format_of};

use crate::ask::Ask;
use crate::print::{folded, folded_bytes, number, print_counted};
use silmezga::Width;
use silmezga_c::answers::Counted;
use tables::row::smaller;

// The bytes of a table's record: 24 or 28.
#[tactic(auto, using(octets::proofs::Laws::format_served))]
pub fn record_bytes(width: Width) -> usize
    ensures { (result ≡ row_bytes (format_of width)) × (1 < result) × (result ≤ 28) }
{
    octets::row_bytes(paper::format_of(width))
}

// Room for the bytes of 4,100 wide records: more than a reshape ever uses.
pub fn records_room() -> [u8; 114800]
    ensures { 114800 ≡ length result }
{
    [0; 114800]
}

pub fn places_room() -> [u32; 4100]
    ensures { 4100 ≡ length result }
{
    [0; 4100]
}

// What lent byte i holds before a call. Neighbours differ, so that a byte put over many, or moved a little, shows.
fn byte_before(i: usize) -> u8 {
    ((7 * (i % 251) + 13) % 251) as u8
}

// What place i of the source list holds before a call: more than any entry and row give.
fn place_before(i: usize) -> u32 {
    (1000003 + i % 65536) as u32
}

pub fn fill_bytes(b: &mut [u8]) {
    for (i, byte) in b.iter_mut().enumerate() {
        *byte = byte_before(i);
    }
}

pub fn fill_places(p: &mut [u32]) {
    for (i, place) in p.iter_mut().enumerate() {
        *place = place_before(i);
    }
}

fn folded_places(sum: usize, p: &[u32]) -> usize {
    p.iter()
        .fold(sum, |sum, place| folded(sum, *place as usize))
}

// A part of a line: what a reshape answers, and the sum over all that was lent, the bytes first.
pub fn print_told(r: Counted, table: &[u8], sources: &[u32]) {
    print_counted(r);
    number(b"; sum ", folded_places(folded_bytes(1, table), sources));
}

fn print_answered(t: &[u8], s: &[u8], said: u32, table: &mut [u8], sources: &mut [u32]) {
    fill_bytes(table);
    fill_places(sources);
    let r = silmezga_c::silmezga_reshape(said, t, s, table, sources);
    print_told(r, table, sources);
}

// Lends as many bytes and places as are asked for, as far as there are any.
pub fn print_reshaped(t: &[u8], s: &[u8], ask: Ask) {
    let mut table = records_room();
    let mut sources = places_room();
    let lent = smaller(ask.bytes, 114800);
    let places = smaller(ask.places, 4100);
    print_answered(t, s, ask.said, &mut table[..lent], &mut sources[..places]);
}
