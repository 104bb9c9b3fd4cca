// The listing: a refusal, or the verdict, a line for each line of the new table, and one for each edge of the shape.
ghost use Rattle.std.specs.Prelude.{◌≡◌, ◌≤◌, length, IfOk};
ghost use Rattle.paper.specs.Format.{row_bytes};
ghost use Rattle.octets.specs.Served.{Served};

use crate::edges::print_edges;
use crate::out::{Stopped, Written, print};
use crate::report::{report_refused, report_verdict};
use crate::width::served;
use listing::answers::{put_refused, put_verdict};
use listing::line::put_line;
use paper::{Format, Width};
use silmezga::reader::{make, next, row};
use silmezga::{Refusal, Verdict};

// Prints a refusal, as every screen does.
pub fn print_refused(rt: &impl Print, number: usize, place: usize) -> Written {
    let mut text = [0u8; 256];
    let n = put_refused(&mut text, number, place);
    print(rt, &text[..n])
}

fn print_verdict(rt: &impl Print, v: Verdict) -> Written {
    let mut text = [0u8; 256];
    let n = put_verdict(&mut text, v);
    print(rt, &text[..n])
}

// A row's line, with its source; a row that is not whole has none.
fn print_line(rt: &impl Print, row: &[u8], f: Format, source: u32) -> Written
    requires { Served f }
    ensures { IfOk result (λ _. length row.now ≡ row_bytes f) }
{
    if row.len() != octets::row_bytes(f) {
        return Err(Stopped);
    }
    let mut text = [0u8; 256];
    let n = put_line(&mut text, row, f, source);
    print(rt, &text[..n])
}

// The lines of a new table, in order, each written as soon as its text is made: a reader steps from row to row.
fn print_lines(
    rt: &impl Print,
    width: Width,
    table: &[u8],
    sources: &[u32],
    lines: usize,
) -> Written
    ensures { IfOk result (λ _. lines ≤ length sources.now) }
{
    let f = served(width);
    let mut r = make(width, table, 0);
    for at in 0..lines {
        let Some(source) = sources.get(at) else {
            return Err(Stopped);
        };
        print_line(rt, row(r), f, *source)?;
        r = next(r);
    }
    Ok(())
}

// Reshapes a table into the front of what is lent, with room for 1,024 lines of its width.
fn reshape_into(
    width: Width,
    source: &[u8],
    shape: &[u8],
    table: &mut [u8],
    sources: &mut [u32],
) -> Result<usize, Refusal>
    requires { 28672 ≤ length table.old }
{
    let room = 1024 * octets::row_bytes(served(width));
    silmezga::reshape(width, source, shape, &mut table[..room], sources)
}

// Prints the refusal of a listing, and reports what it names.
fn print_refusal(
    rt: &impl Print,
    width: Width,
    source: &[u8],
    shape: &[u8],
    refusal: Refusal,
    channel: Option<i32>,
) -> Written {
    let number = refusal.number();
    let place = refusal.place();
    print_refused(rt, number, place)?;
    report_refused(channel, width, source, shape, number, place)
}

// Reshapes a table into what is lent, prints the listing, and reports the answer.
fn print_reshaped(
    rt: &impl Print,
    width: Width,
    source: &[u8],
    shape: &[u8],
    table: &mut [u8],
    sources: &mut [u32],
    channel: Option<i32>,
) -> Written
    requires { 28672 ≤ length table.old }
{
    let lines = match reshape_into(width, source, shape, table, sources) {
        Ok(lines) => lines,
        Err(refusal) => return print_refusal(rt, width, source, shape, refusal, channel),
    };
    match silmezga::judge(width, source, shape) {
        Ok(j) => {
            print_verdict(rt, j.verdict)?;
            report_verdict(channel, width, source, shape, j.verdict, j.none_apart)?;
            print_lines(rt, width, table, sources, lines)?;
            print_edges(rt, width, shape, j, channel)
        }
        Err(refusal) => print_refusal(rt, width, source, shape, refusal, channel),
    }
}

// Prints the listing of a table and a shape, with room for 1,024 lines. The answer and what it names are reported where there is a channel.
pub fn print_listing(
    rt: &impl Print,
    width: Width,
    source: &[u8],
    shape: &[u8],
    channel: Option<i32>,
) -> Written {
    let mut new = [0u8; 28672];
    let mut sources = [0u32; 1024];
    print_reshaped(rt, width, source, shape, &mut new, &mut sources, channel)
}
