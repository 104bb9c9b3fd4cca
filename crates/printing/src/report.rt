// What the program reports of a listing, on a channel: its answer, the rows and the entries that this names, and with a verdict the second
// answer.
use crate::out::{Stopped, Written, report};
use crate::refusal::named;
use crate::width::{entry_at, served};
use facts::entry::{put_entry, put_entry_fields};
use facts::row::{put_row, put_row_fields};
use listing::answers::{put_refused, put_verdict};
use paper::Width;
use silmezga::reader::handed;
use silmezga::{Refusal, Verdict};
use tables::row::smaller;

// One more row: where it has a level, its label stands there, and the level is the length of the type.
fn add_row(held: &mut [u8; 20], row: &[u8]) {
    if row.len() < 4 {
        return;
    }
    let level = octets::wide(row[0]);
    if level < 1 || 8 < level {
        return;
    }
    held[1] = row[0];
    held[2 + 2 * level] = row[2];
    held[3 + 2 * level] = row[3];
}

// The type of a row, as a wide entry's record holds it: the labels that stand at each level when the rows up to it have passed.
fn type_held(width: Width, table: &[u8], r: usize) -> [u8; 20] {
    let mut held = [0u8; 20];
    for i in 0..=smaller(r, 1023) {
        add_row(&mut held, handed(width, table, i));
    }
    held
}

// A row that keeps the rules.
fn report_row(channel: i32, width: Width, table: &[u8], r: usize) -> Written {
    let f = served(width);
    let row = handed(width, table, r);
    if row.len() != octets::row_bytes(f) {
        return Err(Stopped);
    }
    let held = type_held(width, table, r);
    let mut text = [0u8; 512];
    let n = put_row(&mut text, r, row, &held, f);
    report(channel, &text[..n])
}

// A row that breaks a rule, after the row before it.
fn report_broken_row(channel: i32, width: Width, table: &[u8], r: usize) -> Written {
    if 0 < r {
        report_row(channel, width, table, r - 1)?;
    }
    let f = served(width);
    let row = handed(width, table, r);
    if row.len() != octets::row_bytes(f) {
        return Err(Stopped);
    }
    let mut text = [0u8; 512];
    let n = put_row_fields(&mut text, r, row, f);
    report(channel, &text[..n])
}

// An entry that keeps the rules.
fn report_entry(channel: i32, width: Width, shape: &[u8], e: usize) -> Written {
    let f = served(width);
    let entry = entry_at(shape, f, e).ok_or(Stopped)?;
    let mut text = [0u8; 512];
    let n = put_entry(&mut text, e, entry, f);
    report(channel, &text[..n])
}

// An entry that breaks a rule.
fn report_broken_entry(channel: i32, width: Width, shape: &[u8], e: usize) -> Written {
    let f = served(width);
    let entry = entry_at(shape, f, e).ok_or(Stopped)?;
    let mut text = [0u8; 512];
    let n = put_entry_fields(&mut text, e, entry, f);
    report(channel, &text[..n])
}

// A refusal.
pub fn report_answer(channel: i32, number: usize, place: usize) -> Written {
    let mut text = [0u8; 256];
    let n = put_refused(&mut text, number, place);
    report(channel, &text[..n])
}

// The row or the entry that a refusal names; refusals that name none report nothing more.
pub fn report_at_fault(
    channel: i32,
    width: Width,
    table: &[u8],
    shape: &[u8],
    number: usize,
    place: usize,
) -> Written {
    match named(number, place) {
        Some(Refusal::BadRow(row)) => report_broken_row(channel, width, table, row),
        Some(Refusal::TooManyTypes(row)) => report_row(channel, width, table, row),
        Some(Refusal::BadEntry(e)) => report_broken_entry(channel, width, shape, e),
        Some(Refusal::TypeMissing(e)) => report_entry(channel, width, shape, e),
        _ => Ok(()),
    }
}

// A refusal, and what it names; nothing where there is no channel.
pub fn report_refused(
    channel: Option<i32>,
    width: Width,
    table: &[u8],
    shape: &[u8],
    number: usize,
    place: usize,
) -> Written {
    let Some(channel) = channel else {
        return Ok(());
    };
    report_answer(channel, number, place)?;
    report_at_fault(channel, width, table, shape, number, place)
}

// The row or the two entries that a verdict names.
fn report_named(channel: i32, width: Width, table: &[u8], shape: &[u8], v: Verdict) -> Written {
    match v {
        Verdict::Kept => Ok(()),
        Verdict::Missing { entry, row } => {
            report_entry(channel, width, shape, entry)?;
            report_row(channel, width, table, row)
        }
        Verdict::Apart { first, second } | Verdict::Unsure { first, second } => {
            report_entry(channel, width, shape, first)?;
            report_entry(channel, width, shape, second)
        }
    }
}

// The second answer.
fn report_second(channel: i32, none_apart: bool) -> Written {
    if none_apart {
        report(channel, b"none apart\n")
    } else {
        report(channel, b"some apart\n")
    }
}

// A verdict, what it names, and the second answer; nothing where there is no channel.
pub fn report_verdict(
    channel: Option<i32>,
    width: Width,
    table: &[u8],
    shape: &[u8],
    v: Verdict,
    none_apart: bool,
) -> Written {
    let Some(channel) = channel else {
        return Ok(());
    };
    let mut text = [0u8; 256];
    let n = put_verdict(&mut text, v);
    report(channel, &text[..n])?;
    report_named(channel, width, table, shape, v)?;
    report_second(channel, none_apart)
}
