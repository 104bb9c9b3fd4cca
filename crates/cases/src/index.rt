// An index of the table: what the builder leaves in two lists that are filled before the call, and what the calls that are lent two lists for
// reading answer and leave.
ghost use Rattle.std.specs.Prelude.{◌≡◌, length};

use crate::ask::Ask;
use crate::calls::{print_judgement, print_summary};
use crate::converted::read_numbers;
use crate::lent::{fill_bytes, fill_places, places_room, print_told, records_room};
use crate::print::{folded, number, print_counted};
use tables::row::smaller;

// Room for some more places than a table has rows.
fn rows_room() -> [u16; 1100]
    ensures { 1100 ≡ length result }
{
    [0; 1100]
}

// What place i of a list holds before a call: more than any row, and not what stands for none.
fn row_before(i: usize) -> u16 {
    (20000 + i % 2048) as u16
}

fn fill_rows(list: &mut [u16]) {
    for (i, row) in list.iter_mut().enumerate() {
        *row = row_before(i);
    }
}

fn folded_rows(sum: usize, list: &[u16]) -> usize {
    list.iter()
        .fold(sum, |sum, row| folded(sum, octets::wide16(*row)))
}

// The sum is over all places that were lent, those for the last descendants first.
fn print_built(said: u32, t: &[u8], last: &mut [u16], next: &mut [u16]) {
    fill_rows(last);
    fill_rows(next);
    let r = silmezga_c::silmezga_build_index(said, t, last, next);
    print_counted(r);
    number(b"; sum ", folded_rows(folded_rows(1, last), next));
}

fn print_judged(said: u32, t: &[u8], s: &[u8], last: &[u16], next: &[u16]) {
    print_judgement(silmezga_c::silmezga_judge_with_index(said, t, s, last, next));
}

fn print_summarised(said: u32, t: &[u8], s: &[u8], last: &[u16], next: &[u16]) {
    print_summary(silmezga_c::silmezga_summarise_with_index(said, t, s, last, next));
}

fn print_answered(
    said: u32,
    t: &[u8],
    s: &[u8],
    last: &[u16],
    next: &[u16],
    table: &mut [u8],
    sources: &mut [u32],
) {
    fill_bytes(table);
    fill_places(sources);
    let r = silmezga_c::silmezga_reshape_with_index(said, t, s, last, next, table, sources);
    print_told(r, table, sources);
}

// Lends as many bytes and places as are asked for, as far as there are any.
fn print_reshaped(t: &[u8], s: &[u8], last: &[u16], next: &[u16], ask: Ask) {
    let mut table = records_room();
    let mut sources = places_room();
    let lent = smaller(ask.bytes, 114800);
    let places = smaller(ask.places, 4100);
    print_answered(
        ask.said,
        t,
        s,
        last,
        next,
        &mut table[..lent],
        &mut sources[..places],
    );
}

fn print_used(t: &[u8], s: &[u8], last: &[u16], next: &[u16], ask: Ask) {
    print_judged(ask.said, t, s, last, next);
    print_reshaped(t, s, last, next, ask);
    print_summarised(ask.said, t, s, last, next);
}

// Lends both lists for building, and with the case's own numbers for reading.
fn print_lists(
    t: &[u8],
    s: &[u8],
    lasts: &[u8],
    nexts: &[u8],
    last: &mut [u16],
    next: &mut [u16],
    ask: Ask,
) {
    print_built(ask.said, t, last, next);
    read_numbers(lasts, last);
    read_numbers(nexts, next);
    print_used(t, s, last, next, ask);
}

// The bytes of the two lists, two a number, as far as there is room.
pub fn print_indexed(t: &[u8], s: &[u8], lasts: &[u8], nexts: &[u8], ask: Ask) {
    if !ask.indexed {
        return;
    }
    let mut last = rows_room();
    let mut next = rows_room();
    let for_last = smaller(lasts.len() / 2, 1100);
    let for_next = smaller(nexts.len() / 2, 1100);
    print_lists(
        t,
        s,
        lasts,
        nexts,
        &mut last[..for_last],
        &mut next[..for_next],
        ask,
    );
}
