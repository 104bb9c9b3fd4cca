// A history of folders, by the words that the program was started with.
use crate::entry::entry_of;
use crate::folder::{Step, take_folder};
use crate::text::{put_left_out, put_total};
use printing::out::{Stopped, Written, print, report};
use printing::words;
use std::env::Env;
use std::rt::Files;
use totals::Total;

// Takes in the folder that word i names. A word that is missing, empty or too long names none.
fn take_named(
    rt: &(impl Env + Files + Print),
    i: usize,
    total: Total,
    entry: usize,
) -> Result<Step, Stopped> {
    let mut name = [0u8; 4000];
    let n = words::word(rt, i, &mut name);
    if n == 0 {
        return Err(Stopped);
    }
    take_folder(rt, &name[..n], total, entry)
}

fn print_total(rt: &impl Print, total: Total) -> Written {
    let mut text = [0u8; 4096];
    let n = put_total(&mut text, total);
    print(rt, &text[..n])
}

// Reports how many folders are not in the total; nothing where none is left out.
fn report_left_out(channel: i32, folders: usize) -> Written {
    if folders == 0 {
        return Ok(());
    }
    let mut text = [0u8; 256];
    let n = put_left_out(&mut text, folders);
    report(channel, &text[..n])
}

// Takes in the folders that the words from `first` on name, up to the word before `last`, each with the total that those before it left, and prints a
// line for each, and the total last. Where a folder cannot be read or a line not written, nothing more is. How many were refused goes to the channel.
pub fn print_history(
    rt: &(impl Env + Files + Print),
    first: usize,
    last: usize,
    entry: usize,
    channel: i32,
) -> Written {
    let mut total = Total {
        shown: 0,
        unshown: 0,
        tapes: 0,
    };
    let mut refused = 0;
    for i in first..last {
        let s = take_named(rt, i, total, entry)?;
        total = s.total;
        if s.refused {
            refused += 1;
        }
    }
    print_total(rt, total)?;
    report_left_out(channel, refused)
}

// The history whose entry word `at` names, and whose folders the words behind it name, up to the word before `last`.
pub fn print_worded(
    rt: &(impl Env + Files + Print),
    at: usize,
    last: usize,
    channel: i32,
) -> Written {
    if last <= at {
        return Err(Stopped);
    }
    let mut word = [0u8; 64];
    let n = words::word(rt, at, &mut word);
    print_history(rt, at + 1, last, entry_of(&word[..n]), channel)
}
