// The program: prints a screen of `source8.tab` and `shape8.tab` in the working directory where the first of them opens, and else of
// `source.tab` and `shape.tab`. Where the shape file does not open, the wanted tree is the line of text in `shape.txt`; a second word is that line,
// in place of both files. Without a word it prints the listing, which is document 01's program. The command `./intake` gives it a word
// for the screen, and has reported to it, on a channel of its own, what a listing's first line names and, last, that everything was written.
// Behind the word `total` stand an entry and the folders that are taken in one after the other; how many were refused is reported.
#![tactic(auto)]

use billing::history::print_worded;
use printing::folder::print_screen;
use printing::out::{Written, report_whole};
use printing::screen::screen_named;
use printing::typed_tree::typed_word;
use printing::words;
use std::env::Env;
use std::rt::Files;

// The channel that the command opens. Where it is not open, a write to it reports nothing.
const REPORT: i32 = 3;

// The screen of the working directory that the word asks for.
fn print_here(rt: &(impl Env + Files + Print), word: &[u8]) -> Written {
    let mut text = [0u8; 1537];
    let typed = typed_word(rt, 2, &mut text);
    print_screen(
        rt,
        b"source8.tab",
        b"shape8.tab",
        b"source.tab",
        b"shape.tab",
        b"shape.txt",
        typed.map(|n| &text[..n]),
        screen_named(word),
        REPORT,
    )
}

// What the word asks for: the total of a history, or a screen.
fn print_asked(rt: &(impl Env + Files + Print), word: &[u8]) -> Written {
    match word {
        b"total" => print_worded(rt, 2, words::count(rt), REPORT),
        _ => print_here(rt, word),
    }
}

fn main(rt: HostRuntime) {
    let mut word = [0u8; 16];
    let n = words::word(&rt, 1, &mut word);
    let done = print_asked(&rt, &word[..n]);
    if n == 0 {
        return;
    }
    if done.is_ok() {
        let _ = report_whole(REPORT, done);
    }
}
