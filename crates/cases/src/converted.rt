// A table and a shape with their labels converted, into lent bytes that are filled before the call, so that what it leaves in each can be told.
use crate::ask::Ask;
use crate::lent::fill_bytes;
use crate::moved::file_room;
use crate::print::{folded_bytes, number};
use tables::row::smaller;

// The numbers of a list of pairs, two bytes each, as far as there is room.
pub fn read_numbers(list: &[u8], numbers: &mut [u16]) {
    for (number, pair) in numbers.iter_mut().zip(list.chunks_exact(2)) {
        *number = octets::word(pair, 0) as u16;
    }
}

fn print_counts(refusal: usize, place: usize, rows: usize, entries: usize) {
    number(b": ", refusal);
    number(b" ", place);
    number(b" ", rows);
    number(b" ", entries);
}

// The sum is over all that was lent, the bytes for the table first.
fn print_answered(
    said: u32,
    t: &[u8],
    s: &[u8],
    numbers: &[u16],
    table: &mut [u8],
    shape: &mut [u8],
) {
    fill_bytes(table);
    fill_bytes(shape);
    let r = silmezga_c::silmezga_convert_labels(said, t, s, numbers, table, shape);
    print_counts(r.number, r.place, r.rows, r.entries);
    number(b"; sum ", folded_bytes(folded_bytes(1, table), shape));
}

// Lends as many bytes as are asked for, as far as there are any.
fn print_lent(t: &[u8], s: &[u8], numbers: &[u16], ask: Ask) {
    let mut table = file_room();
    let mut shape = file_room();
    let for_table = smaller(ask.for_table, 30000);
    let for_shape = smaller(ask.for_shape, 30000);
    print_answered(
        ask.said,
        t,
        s,
        numbers,
        &mut table[..for_table],
        &mut shape[..for_shape],
    );
}

fn print_listed(t: &[u8], s: &[u8], list: &[u8], numbers: &mut [u16], ask: Ask) {
    read_numbers(list, numbers);
    print_lent(t, s, numbers, ask);
}

// A list has room for 1,024 numbers.
pub fn print_converted(t: &[u8], s: &[u8], list: &[u8], ask: Ask) {
    let mut numbers = [0u16; 1024];
    let n = smaller(list.len() / 2, 1024);
    print_listed(t, s, list, &mut numbers[..n], ask);
}
