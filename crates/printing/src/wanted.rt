// The wanted tree of a screen: the bytes of a shape file, or a text that is read over the table and is a shape's bytes from then on.
use crate::marked::report_typed;
use crate::new_table::print_refused;
use crate::out::Written;
use crate::screen::{Screen, channel_of, print_of, shows_tree};
use crate::tape::{Wanted, read_tree};
use crate::typed_tree::read_typed;
use paper::Width;
use std::rt::Files;

// Prints a screen of a table and a typed tree, or the tree's refusal.
pub fn print_typed(
    rt: &impl Print,
    width: Width,
    table: &[u8],
    text: &[u8],
    screen: Screen,
    channel: i32,
) -> Written {
    let mut shape = [0u8; 320];
    match read_typed(width, table, text, &mut shape) {
        Ok(n) => print_of(rt, width, table, &shape[..n], screen, channel),
        Err(refusal) => {
            let number = refusal.number();
            let place = refusal.place();
            print_refused(rt, number, place)?;
            let channel = channel_of(screen, channel);
            report_typed(channel, width, table, text, number, place)
        }
    }
}

// Prints a screen of a table and the wanted tree of two files: the shape file where it opens, else the file of a typed tree where that opens, else
// an empty shape.
pub fn print_wanted(
    rt: &(impl Files + Print),
    width: Width,
    table: &[u8],
    shape: &[u8],
    typed: &[u8],
    screen: Screen,
    channel: i32,
) -> Written {
    let mut wanted = [0u8; 1539];
    match read_tree(rt, width, shape, typed, shows_tree(screen), &mut wanted)? {
        Wanted::Text(n) => print_typed(rt, width, table, &wanted[..n], screen, channel),
        Wanted::Shape(n) => print_of(rt, width, table, &wanted[..n], screen, channel),
    }
}
