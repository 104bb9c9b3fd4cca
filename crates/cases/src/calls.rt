// The calls that answer by value, and the reader: what each prints of its part of a line. Where both languages have a call, it is the one for C,
// which takes the number that says the width and runs the Rattle call; look-up and the reader are run in Rattle, since what they hand out is a part
// of the caller's table.
ghost use Rattle.std.specs.Prelude.{◌+◌, ◌*◌, ◌≤◌, length};

use crate::lent::record_bytes;
use crate::marked::adorn_marked;
use crate::print::{OUTPUT, folded, folded_bytes, hexadecimal, number, print_counted};
use silmezga::reader::{handed, handed_next};
use silmezga::{TypeSummary, Width};
use silmezga_c::answers::{JudgedNumbers, SummaryNumbers};

pub fn print_examined(said: u32, t: &[u8]) {
    let e = silmezga_c::silmezga_examine(said, t);
    number(b"", e.number);
    number(b" ", e.place);
    number(b" ", e.count);
}

// The place of each row, and two past the last.
#[tactic(auto, using(crate::proofs::Fits::records_half))]
fn places_asked(width: Width, t: &[u8]) -> usize
    ensures { 2 * result ≤ length t.now + 4 }
{
    let w = record_bytes(width);
    t.len() / w + 2
}

// Asks the reader at each row, and at two places past the last, for the row there and for the next.
pub fn print_read(width: Width, t: &[u8]) {
    let end = places_asked(width, t);
    let mut rows = 0;
    let mut sum = 1;
    for at in 0..end {
        let row = handed(width, t, at);
        let after = handed_next(width, t, at);
        sum = folded_bytes(folded(sum, row.len()), row);
        sum = folded_bytes(folded(sum, after.len()), after);
        if row.len() != 0 {
            rows += 1;
        }
    }
    number(b": ", rows);
    number(b" ", sum);
}

fn print_found(said: u32, t: &[u8], row: usize) {
    let c = silmezga_c::silmezga_look_up(said, t, row);
    number(b"; ", c.number);
    number(b" ", c.place);
    number(b" ", c.start);
    number(b" ", c.length);
}

fn print_look_up_refusal(width: Width, t: &[u8], row: usize) {
    match silmezga::look_up_refusal(width, t, row) {
        Ok(()) => {
            io::write_all(OUTPUT, b": 0 0");
        }
        Err(refusal) => {
            number(b": ", refusal.number());
            number(b" ", refusal.place());
        }
    }
}

// The row's bytes by the Rattle call, and where they stand by the call for C.
pub fn print_looked_up(width: Width, said: u32, t: &[u8], row: usize) {
    print_look_up_refusal(width, t, row);
    io::write_all(OUTPUT, b" ");
    hexadecimal(silmezga::look_up(width, t, row));
    print_found(said, t, row);
}

fn print_figures(s: TypeSummary) {
    number(b" ", s.parent);
    number(b" ", s.label);
    number(b" ", s.level);
    number(b" ", s.rows);
    number(b" ", s.least);
    number(b" ", s.greatest);
}

// Does a summary hold the mark in every figure?
fn marked(s: TypeSummary, mark: usize) -> bool {
    s.parent == mark
        && s.label == mark
        && s.level == mark
        && s.rows == mark
        && s.least == mark
        && s.greatest == mark
}

fn print_changed(k: usize, s: TypeSummary, mark: usize) {
    if !marked(s, mark) {
        number(b"; summary ", k);
        print_figures(s);
    }
}

// Prints the first summaries, as many as were counted, and of the others those that lost their mark.
fn print_summaries(all: &[TypeSummary], count: usize, mark: usize) {
    for (k, s) in all.iter().enumerate() {
        if k < count {
            io::write_all(OUTPUT, b";");
            print_figures(*s);
        } else {
            print_changed(k, *s, mark);
        }
    }
}

pub fn print_adorned(said: u32, t: &[u8], lent: usize) {
    let a = adorn_marked(said, t, lent);
    print_counted(a.answer);
    print_summaries(&a.summaries, a.answer.count, 7777);
}

// An entry's four numbers, unless all of them are 0.
fn print_entry(entry: usize, first: usize, second: usize, third: usize, fourth: usize) {
    if first != 0 || second != 0 || third != 0 || fourth != 0 {
        number(b"; ", entry);
        number(b" ", first);
        number(b" ", second);
        number(b" ", third);
        number(b" ", fourth);
    }
}

fn print_entries(first: [usize; 16], second: [usize; 16], third: [usize; 16], fourth: [usize; 16]) {
    for e in 0..16 {
        print_entry(e, first[e], second[e], third[e], fourth[e]);
    }
}

pub fn print_judgement(j: JudgedNumbers) {
    number(b": ", j.number);
    number(b" ", j.place);
    number(b" ", j.verdict);
    number(b" ", j.first);
    number(b" ", j.second);
    number(b" ", j.none_apart);
    print_entries(
        j.least_children,
        j.greatest_children,
        j.least_parents,
        j.greatest_parents,
    );
}

pub fn print_judged(said: u32, t: &[u8], s: &[u8]) {
    print_judgement(silmezga_c::silmezga_judge(said, t, s));
}

pub fn print_summary(r: SummaryNumbers) {
    number(b": ", r.number);
    number(b" ", r.place);
    print_entries(r.lines, r.rows, r.copies, r.different);
}

pub fn print_summarised(said: u32, t: &[u8], s: &[u8]) {
    print_summary(silmezga_c::silmezga_summarise(said, t, s));
}
