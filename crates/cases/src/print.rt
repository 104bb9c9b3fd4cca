// What every part of a line is printed with: numbers, bytes, and a sum in place of what is long.
use silmezga_c::answers::Counted;

// The channel of standard output.
pub const OUTPUT: i32 = 1;

// Prints what stands before a number, and the number.
pub fn number(before: &[u8], n: usize) {
    io::write_all(OUTPUT, before);
    io::print_decimal(OUTPUT, n as u64);
}

// Prints bytes in hexadecimal digits, two a byte.
pub fn hexadecimal(b: &[u8]) {
    for byte in b {
        io::print_hex(OUTPUT, u64::from(*byte), 2);
    }
}

// A sum that goes on by a number: it tells where each number stood. Both are cut down first, so that the sum fits whatever they are.
pub fn folded(sum: usize, x: usize) -> usize {
    (1000003 * (sum % 2147483647) + x % 4294967296) % 2147483647
}

pub fn folded_bytes(sum: usize, b: &[u8]) -> usize {
    b.iter()
        .fold(sum, |sum, byte| folded(sum, octets::wide(*byte)))
}

// A count, or the refusal in its place.
pub fn print_counted(r: Counted) {
    number(b": ", r.number);
    number(b" ", r.place);
    number(b" ", r.count);
}

// A part of a line: what a call answers, and the sum over all that it was lent.
pub fn print_left(r: Counted, lent: &[u8]) {
    print_counted(r);
    number(b"; sum ", folded_bytes(1, lent));
}
