// A text read over the table, and the shape printed as a line, which is read over the table too; each into lent bytes that are filled before the
// call, so that what it leaves in them can be told.
use crate::ask::Ask;
use crate::lent::fill_bytes;
use crate::moved::file_room;
use crate::print::print_left;
use tables::row::smaller;

fn print_tree_read(said: u32, t: &[u8], text: &[u8], shape: &mut [u8]) {
    fill_bytes(shape);
    let r = silmezga_c::silmezga_read_tree(said, t, text, shape);
    print_left(r, shape);
}

// Lends as many bytes as are asked for, as far as there are any.
pub fn print_text(t: &[u8], text: &[u8], ask: Ask) {
    let mut shape = file_room();
    let lent = smaller(ask.for_tree, 30000);
    print_tree_read(ask.said, t, text, &mut shape[..lent]);
}

// What is printed is read back; it is an empty text where printing is refused.
fn print_and_read(t: &[u8], s: &[u8], line: &mut [u8], ask: Ask) {
    fill_bytes(line);
    let r = silmezga_c::silmezga_print_tree(ask.said, s, line);
    let end = smaller(r.count, line.len());
    print_left(r, line);
    print_text(t, &line[..end], ask);
}

// Lends as many bytes as are asked for, as far as there are any.
pub fn print_line(t: &[u8], s: &[u8], ask: Ask) {
    let mut line = file_room();
    let lent = smaller(ask.for_line, 30000);
    print_and_read(t, s, &mut line[..lent], ask);
}
