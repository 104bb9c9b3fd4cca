// What the program reports of a typed tree that is refused: the text, with a mark under the place or the entry at fault.
use crate::out::{Stopped, Written, report};
use crate::refusal::named;
use crate::report::{report_answer, report_at_fault};
use facts::tree::put_marked;
use paper::Width;
use silmezga::Refusal;

// Is the byte one of a word?
fn in_word(b: u8) -> bool {
    !matches!(b, b' ' | b'[' | b']')
}

// Does a word begin at this place?
fn begins_word(text: &[u8], i: usize) -> bool {
    let inside = text.get(i).is_some_and(|b| in_word(*b));
    let before = 0 < i && text.get(i - 1).is_some_and(|b| in_word(*b));
    inside && !before
}

// Where word e begins, which names entry e.
fn word_start(text: &[u8], e: usize) -> Option<usize> {
    (0..text.len()).filter(|i| begins_word(text, *i)).nth(e)
}

// The text and a mark at the place; of a text that is too long, that it is.
fn report_marked(channel: i32, text: &[u8], place: usize) -> Written {
    if 1536 < text.len() {
        return report(channel, b"tree: more than 1,536 bytes\n");
    }
    if 1536 < place {
        return Err(Stopped);
    }
    let mut out = [0u8; 4096];
    let n = put_marked(&mut out, text, place);
    report(channel, &out[..n])
}

// A refusal of a typed tree or of the table that it is read over, and what it names; nothing where there is no channel. A word that is not there is
// marked behind the text.
pub fn report_typed(
    channel: Option<i32>,
    width: Width,
    table: &[u8],
    text: &[u8],
    number: usize,
    place: usize,
) -> Written {
    let Some(channel) = channel else {
        return Ok(());
    };
    report_answer(channel, number, place)?;
    match named(number, place) {
        Some(Refusal::NoTree(at)) => report_marked(channel, text, at),
        Some(Refusal::BadEntry(e) | Refusal::NoOneType(e)) => {
            let start = word_start(text, e).unwrap_or(text.len());
            report_marked(channel, text, start)
        }
        _ => report_at_fault(channel, width, table, b"", number, place),
    }
}
