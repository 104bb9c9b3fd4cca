// The wanted tree as a line of text: how it comes to the program, and how it is printed from a shape.
ghost use Rattle.std.specs.Prelude.{◌≤◌, length, IfOk, IfSome};
ghost use Rattle.io.specs.Counts.{IsPrefixLen};

use crate::new_table::print_refused;
use crate::out::{Stopped, Written, print};
use crate::width::served;
use paper::Width;
use silmezga::Refusal;
use std::env::{Env, FillError};

// Puts the tree that the program was started with, as its i-th word, into what is lent, and answers its length, if there is such a word. One that is
// longer than what is lent fills it, so that a part of it never passes for the whole.
pub fn typed_word(rt: &impl Env, i: usize, text: &mut [u8]) -> Option<usize>
    ensures { IfSome result (λ n. IsPrefixLen n text.new) }
{
    match rt.arg(i, text) {
        Ok(n) => Some(n),
        Err(FillError::TooLong) => Some(text.len()),
        Err(FillError::NotPresent) => None,
    }
}

// How long a text is without the end of its line, a newline or a carriage return and a newline, which editors put behind it.
pub fn without_end(text: &[u8]) -> usize
    ensures { IsPrefixLen result text.now }
{
    match text {
        [line @ .., b'\r', b'\n'] | [line @ .., b'\n'] => line.len(),
        _ => text.len(),
    }
}

// Reads a typed tree over a table into what is lent, with room for every shape: the bytes of its shape.
pub fn read_typed(
    width: Width,
    table: &[u8],
    text: &[u8],
    shape: &mut [u8],
) -> Result<usize, Refusal>
    requires { 320 ≤ length shape.old }
    ensures { IfOk result (λ n. IsPrefixLen n shape.new) }
{
    let entries = silmezga::read_tree(width, table, text, shape)?;
    Ok(entries * octets::entry_bytes(served(width)))
}

// Prints the refusal of printing, or the shape as a line of text.
pub fn print_shape(rt: &impl Print, width: Width, shape: &[u8]) -> Written {
    let mut text = [0u8; 1536];
    let n = match silmezga::print_tree(width, shape, &mut text) {
        Ok(n) => n,
        Err(refusal) => return print_refused(rt, refusal.number(), refusal.place()),
    };
    print(rt, text.get(..n).ok_or(Stopped)?)?;
    print(rt, b"\n")
}
