// Writing. Every answer of a write is looked at.
ghost use Rattle.std.specs.Prelude.{◌≤◌, length, IsOk};
ghost use Rattle.io.specs.Counts.{IsPrefixLen};

use std::io::{Cursor, Error, Write};

// The channel of standard output.
pub const OUTPUT: i32 = 1;

const STANDARD_ERROR: i32 = 2;

// Not all was read or taken, and nothing more is written. Where a file or standard output is at fault, standard error has said why.
#[derive(Clone, Copy, Drop)]
pub struct Stopped;

// Whether all that there was to write was taken.
pub type Written = Result<(), Stopped>;

// How long an error's text is without the number that the system gives it, as in " (os error 2)".
fn without_number(text: &[u8]) -> usize
    ensures { IsPrefixLen result text.now }
{
    match text.iter().rposition(|b| *b == b'(') {
        Some(at) => at.saturating_sub(1),
        None => text.len(),
    }
}

// Writes a line to standard error: what failed, a colon and why, in the system's words.
pub fn fail(what: &[u8], error: &Error) {
    let mut said = Cursor::new([0u8; 256]);
    let _ = write!(said, "{error}");
    let end = (said.position() as usize).min(256);
    let text = said.into_inner();
    let n = without_number(&text[..end]);
    io::write_all(STANDARD_ERROR, what);
    io::write_all(STANDARD_ERROR, b": ");
    io::write_all(STANDARD_ERROR, &text[..n]);
    io::write_all(STANDARD_ERROR, b"\n");
}

// Writes a text to standard output. Where not all of it is taken, standard error says that what stands there is not whole.
pub fn print(rt: &impl Print, text: &[u8]) -> Written {
    rt.write_all(text).map_err(|e| {
        fail(
            b"intake: NOT WHOLE: what was written is cut off, do not use it: standard output",
            &e,
        );
        Stopped
    })
}

// Reports a text on a channel.
pub fn report(channel: i32, text: &[u8]) -> Written {
    if io::write_all(channel, text) {
        Ok(())
    } else {
        Err(Stopped)
    }
}

// Reports that everything was written, which nobody may who has not found it so.
pub fn report_whole(channel: i32, done: Written) -> Written
    requires { IsOk done }
{
    report(channel, b"whole\n")
}
