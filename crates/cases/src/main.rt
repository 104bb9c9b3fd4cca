// Runs all calls and the reader on the cases of standard input, and prints a line for each, so that all that they answer and all
// that they leave in what they are lent can be compared.
//
// A case is a width, a table, a shape, a row to look up, the room lent for a reshape, the number of summaries lent, the shape of a second
// reshape, which most cases lack, the bytes lent for the table and for the shape in the other width or with their labels converted, the
// numbers of a list of pairs, a text, the bytes lent for its shape and for the line of the shape, and the two lists of an index, which most cases
// lack. It is written as what differs from the case before, since most cases change little. The table's bytes are held from place 0, the shape's
// from 32,768, the last descendants of the index from 40,960 and its next rows from 45,056, the second shape's from 49,152, the list's from 57,344
// and the text's from 61,440, and all begin as zeros. A head of 40 bytes, least byte first: the number of changes (2 bytes), the length of the
// table (2) and of the shape (2), the row (8), the whole records lent (2), the bytes lent past them (1), the summaries lent (1), the places lent
// for the source list (2), the length of the second shape (2), 0 where there is none, the number that says the width to C (1), where 255 stands for
// 4,294,967,295, the bytes lent for the table (2) and for the shape (2) in the other width, how many numbers the list has (2), the length of the
// text (2), the bytes lent for its shape (2) and for the line (2), whether there is an index (1), and how many last descendants (2) and next rows
// (2) it has. Then each change: its place (2 bytes), its length (1) and its bytes. Records are counted because the bytes of 4,096 do not fit two
// bytes. 8 says eight levels, and every other number six.
//
// The line has a part for each call, with ": " between them, and pieces of a part have "; " between them:
// - examining's number, place and rows;
// - the rows that the reader hands out, and the sum over the lengths and the bytes of all parts that it hands out, at each row and at two
//   places past the last: the row there, and the next;
// - look-up's number and place, and the bytes handed back, in hexadecimal digits; for C its number and place, and where in the table the bytes
//   start and how many they are;
// - adorning's number, place and types; the six figures of each summary counted; and each other summary that is not as it was before
//   the call, with its number;
// - judging's number and place, document 01's number of the verdict with its values, zeros where it has none, and the second answer, 1 for yes
//   and 0 for no;
// - reshaping's number, place and lines, and the sum over every lent byte and every lent place after it;
// - summarising's number and place, and for each entry with a figure other than 0 its lines, source rows, copies and different source
//   rows;
// - the number, place and count of widening the table where it is narrow, of narrowing it where it is wide, and the sum over every lent
//   byte after it; then the same of the shape;
// - converting's number, place, rows and entries, and the sum over every byte lent for the table and for the shape after it;
// - the number, place and entries of reading the text over the table, and the sum over every lent byte after it;
// - the number, place and bytes of printing the shape, and the sum over every lent byte after it; then of reading what was printed, an empty text
//   where nothing was, the same as of the text;
// - with an index, the number, place and rows of building one in as many places as its lists have, and the sum over every lent place after it, the
//   last descendants first; then of judging, reshaping and summarising with its lists the parts that they have without;
// - with a second shape, what reshaping to it the lines that the case's own reshape leaves gives, in the form of reshaping's part, with
//   4,100 records and places lent; or `none`, where the case's own reshape is refused or leaves more than 1,024 lines.
// A sum is that of `print::folded`.
//
// The calls are those for C, each of which runs the Rattle call; look-up is both, and the second reshape of a chain is the Rattle call.
#![tactic(auto)]

pub mod ask;
pub mod calls;
pub mod chain;
pub mod converted;
pub mod index;
pub mod lent;
pub mod marked;
pub mod moved;
pub mod print;
pub mod trees;

ghost use Rattle.std.specs.Prelude.{◌≡◌, length};

use ask::{Ask, asked};
use moved::File;
use print::OUTPUT;
use tables::row::smaller;

// The channel of standard input.
const INPUT: i32 = 0;

// The parts of the calls that answer by value, and of the reader.
fn print_answers(t: &[u8], s: &[u8], ask: Ask) {
    let width = ask.width;
    let said = ask.said;
    calls::print_examined(said, t);
    calls::print_read(width, t);
    calls::print_looked_up(width, said, t, ask.row);
    calls::print_adorned(said, t, ask.summaries);
    calls::print_judged(said, t, s);
}

// A case's line.
fn print_case(
    t: &[u8],
    s: &[u8],
    lasts: &[u8],
    nexts: &[u8],
    again: &[u8],
    list: &[u8],
    text: &[u8],
    ask: Ask,
) {
    let width = ask.width;
    print_answers(t, s, ask);
    lent::print_reshaped(t, s, ask);
    calls::print_summarised(ask.said, t, s);
    moved::print_moved(File::Table, width, t, ask.for_table);
    moved::print_moved(File::Shape, width, s, ask.for_shape);
    converted::print_converted(t, s, list, ask);
    trees::print_text(t, text, ask);
    trees::print_line(t, s, ask);
    index::print_indexed(t, s, lasts, nexts, ask);
    chain::print_chain(width, t, s, again, ask.bytes, ask.places);
    io::write_all(OUTPUT, b"\n");
}

// Puts bytes into what is held, from a place on, as far as it reaches.
fn put(held: &mut [u8], at: usize, part: &[u8]) {
    if at < held.len() {
        let n = smaller(part.len(), held.len() - at);
        held[at..at + n].copy_from_slice(&part[..n]);
    }
}

// Fills what is lent from the input, if that has as many bytes left.
fn fill(lent: &mut [u8]) -> Option<()> {
    let n = lent.len();
    (io::read_full(INPUT, lent) == n).then_some(())
}

// Reads a change and makes it, if the input has one left.
fn make_change(held: &mut [u8]) -> Option<()> {
    let mut head = [0u8; 3];
    fill(&mut head)?;
    let at = octets::word(&head, 0);
    let n = octets::wide(head[2]);
    let mut part = [0u8; 255];
    fill(&mut part[..n])?;
    put(held, at, &part[..n]);
    Some(())
}

fn make_changes(held: &mut [u8], count: usize) -> Option<()> {
    for _ in 0..count {
        make_change(held)?;
    }
    Some(())
}

// Prints a case's line, if it fits what is held.
fn print_held(held: &[u8], head: &[u8]) -> Option<()>
    requires { length head.now ≡ 40 }
{
    let n = octets::word(head, 2);
    let end = 32768 + octets::word(head, 4);
    let lasts = 40960 + 2 * octets::word(head, 36);
    let nexts = 45056 + 2 * octets::word(head, 38);
    let last = 49152 + octets::word(head, 20);
    let listed = 57344 + 2 * octets::word(head, 27);
    let read = 61440 + octets::word(head, 29);
    print_case(
        held.get(..n)?,
        held.get(32768..end)?,
        held.get(40960..lasts)?,
        held.get(45056..nexts)?,
        held.get(49152..last)?,
        held.get(57344..listed)?,
        held.get(61440..read)?,
        asked(head),
    );
    Some(())
}

// Reads a case and prints its line, if there is a whole one that fits what is held.
fn run_case(held: &mut [u8]) -> Option<()> {
    let mut head = [0u8; 40];
    fill(&mut head)?;
    make_changes(held, octets::word(&head, 0))?;
    print_held(held, &head)
}

// A proved loop has to end, and nothing says that the input does: the loop goes as far as a number that no run uses up.
fn main() {
    let mut held = io::large_buffer();
    for _ in 0..u64::MAX {
        if run_case(&mut held).is_none() {
            break;
        }
    }
}
