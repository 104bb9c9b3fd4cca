// Histories of folders, one after the other: behind each word `--` an entry and its folders.
ghost use Rattle.std.specs.Prelude.{◌≤◌, ◌<◌, IfSome};

use billing::history::print_worded;
use check::same;
use printing::out::{OUTPUT, Written, print};
use printing::words;
use std::env::Env;
use std::rt::Files;

fn is_mark(rt: &impl Env, i: usize) -> bool {
    let mut word = [0u8; 8];
    let n = words::word(rt, i, &mut word);
    same(&word[..n], b"--")
}

// The first mark from word `from` on, before word `last`.
pub fn mark_from(rt: &impl Env, from: usize, last: usize) -> Option<usize>
    ensures { IfSome result (λ mark. (from ≤ mark) × (mark < last)) }
{
    (from..last).find(|i| is_mark(rt, *i))
}

fn print_heading(rt: &(impl Env + Print), at: usize) -> Written {
    let mut word = [0u8; 64];
    let n = words::word(rt, at, &mut word);
    print(rt, b"== total ")?;
    print(rt, &word[..n])?;
    print(rt, b"\n")
}

// The history of the entry that word `at` names.
fn print_month(rt: &(impl Env + Files + Print), at: usize, last: usize) -> Written {
    print_heading(rt, at)?;
    print_worded(rt, at, last, OUTPUT).or_else(|_| print(rt, b"not whole\n"))
}

// A history behind each mark before word `last`.
pub fn print_months(rt: &(impl Env + Files + Print), last: usize) -> Written {
    let mut mark = mark_from(rt, 1, last);
    while let Some(at) = mark {
        let next = mark_from(rt, at + 1, last);
        print_month(rt, at + 1, next.unwrap_or(last))?;
        mark = next;
    }
    Ok(())
}
