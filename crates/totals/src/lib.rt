// Exact totals over a month of tapes: a library above `silmezga`, which uses that library's public calls and what they promise, and nothing else of it.
// `sum_tape` adds up the values of one entry's source rows, those that the entry's lines show, each once however many lines show it, and those that they
// do not show. `take_in` keeps both sums over a history of tapes. Neither asks anything of its caller, and a refused tape leaves a total as it was. The
// definitions that the promises name are those of specs/Tape and specs/Total, over the source table; what holds of histories is in proofs/Histories.
#![tactic(auto)]

pub mod rows;
pub mod value;

ghost use Rattle.std.specs.Prelude.{◌≡◌, ◌+ℤ◌, length, replicate, Ok, IfOk, IsOk};
ghost use Rattle.paper.specs.Format.{most_rows};
ghost use Rattle.paper.specs.Widths.{format_of};
ghost use Rattle.paper.specs.Calls.{summarise};
ghost use Rattle.reshaping.specs.Reshaped.{summarised};
ghost use Rattle.totals.specs.Tape.{sum_tape, sum_of_type};
ghost use Rattle.totals.specs.Total.{cannot_be, take_in};
ghost use Rattle.totals.specs.Told.{tape, summed, taken};
ghost use Rattle.totals.specs.Work.{HasEntry, MarksShown, SumsRows};

use crate::rows::{add_up, entry_bytes, mark_all, mark_shown, put_alone, row_bytes};
use crate::value::lies_within;
use silmezga::{Refusal, Summary, Width};

// What the values of a tape add up to: of the source rows that the entry's lines show, and of those of its type that they do not show.
#[derive(Clone, Copy, Drop)]
pub struct TapeSums {
    pub shown: i64,
    pub unshown: i64,
}

// Both sums over the tapes taken in, and how many these are. Before the first tape all three are 0.
#[repr(C)]
#[derive(Clone, Copy, Drop)]
pub struct Total {
    pub shown: i64,
    pub unshown: i64,
    pub tapes: usize,
}

// Why a tape is not taken in, and the total as it was handed in.
#[derive(Clone, Copy, Drop)]
pub struct NotTaken {
    pub refusal: Refusal,
    pub total: Total,
}

// Adds up the rows of the entry's type, which a reshape to that entry alone lists: those marked, and the others.
fn sum_rows(
    width: Width,
    table: &[u8],
    shape: &[u8],
    entry: usize,
    marks: &[u8],
) -> Result<TapeSums, Refusal>
    requires { HasEntry (format_of width) table.now shape.now entry × (length marks.now ≡ most_rows) }
    ensures { SumsRows (format_of width) table.now shape.now entry marks.now (summed result) }
{
    let bytes = entry_bytes(width);
    let mut alone = [0u8; 20];
    put_alone(shape, bytes, entry, &mut alone);
    let mut new = [0u8; 28672];
    let mut sources = [0u32; 1024];
    let rows = silmezga::reshape(width, table, &alone[..bytes], &mut new, &mut sources)?;
    add_up(table, row_bytes(width), bytes, &sources, rows, marks)
}

// Marks the rows that the entry's lines show, by the source list of the tape's reshape. What it lends has room for all lines, so that none is refused.
fn mark_lines(
    width: Width,
    table: &[u8],
    shape: &[u8],
    entry: usize,
    marks: &mut [u8],
) -> Result<(), Refusal>
    requires { HasEntry (format_of width) table.now shape.now entry × (marks.old ≡ replicate most_rows 0) }
    ensures { IsOk result × MarksShown (format_of width) table.now shape.now entry marks.new }
{
    let mut new = [0u8; 114688];
    let mut sources = [0u32; 4096];
    let lines = silmezga::reshape(width, table, shape, &mut new, &mut sources)?;
    mark_shown(&sources, lines, entry, marks);
    Ok(())
}

// Marks the rows of the entry's type that its lines show. The summary says how many these are: where they are all rows of the type, or none, no line
// need be looked at.
fn mark_rows(
    width: Width,
    table: &[u8],
    shape: &[u8],
    entry: usize,
    summary: Summary,
    marks: &mut [u8],
) -> Result<(), Refusal>
    requires has_entry { HasEntry (format_of width) table.now shape.now entry × (marks.old ≡ replicate most_rows 0) }
    requires summary_value { summarised (Ok summary) ≡ summarise (format_of width) table.now shape.now }
    ensures { IsOk result × MarksShown (format_of width) table.now shape.now entry marks.new }
{
    let all = summary.rows;
    let shown = summary.different;
    let rows = all[entry];
    let different = shown[entry];
    if different == rows {
        mark_all(marks);
    } else if different != 0 {
        mark_lines(width, table, shape, entry, marks)?;
    }
    Ok(())
}

// Adds up the values of an entry's source rows: refusals as for a summary, 1 to 8, with room for 4,096 lines; then 16 where the shape has no such
// entry; 17 with the first row of the entry's type, shown or not, whose value lies beyond ±10^12; or the sum over the rows that the entry's lines show,
// each once, and the sum over the rows of its type that they do not show. Both together are the sum over all rows of the type.
pub fn sum_tape(width: Width, table: &[u8], shape: &[u8], entry: usize) -> Result<TapeSums, Refusal>
    ensures result_value { summed result ≡ sum_tape (tape (format_of width) table.now shape.now entry) }
    ensures unshown_value { IfOk result (λ sums. sums.shown +ℤ sums.unshown ≡ sum_of_type (tape (format_of width) table.now shape.now entry)) }
{
    let summary = silmezga::summarise(width, table, shape)?;
    if shape.len() / entry_bytes(width) <= entry {
        return Err(Refusal::NoSuchEntry);
    }
    let mut marks = [0u8; 1024];
    mark_rows(width, table, shape, entry, summary, &mut marks)?;
    sum_rows(width, table, shape, entry, &marks)
}

// Is this a total that cannot be one: of 1,000 tapes or more, or with a sum beyond ±1.024 × 10^15 a tape?
fn cannot_be(total: Total) -> bool
    ensures { result ≡ cannot_be total }
{
    let full = 1000 <= total.tapes;
    if full {
        return true;
    }
    let most = total.tapes * 1024000000000000;
    !lies_within(most, total.shown) || !lies_within(most, total.unshown)
}

// Takes a tape into a running total: the refusals of `sum_tape`; then 18 where the total handed in has 1,000 tapes or more, or a sum beyond
// ±1.024 × 10^15 a tape; or the total with both sums of the tape added and one tape more. Refused, the answer has the total as it was handed in.
pub fn take_in(
    total: Total,
    width: Width,
    table: &[u8],
    shape: &[u8],
    entry: usize,
) -> Result<Total, NotTaken>
    ensures { taken result ≡ take_in total (tape (format_of width) table.now shape.now entry) }
{
    let sums = match sum_tape(width, table, shape, entry) {
        Ok(sums) => sums,
        Err(refusal) => return Err(NotTaken { refusal, total }),
    };
    if cannot_be(total) {
        return Err(NotTaken {
            refusal: Refusal::NoTotal,
            total,
        });
    }
    let shown = total.shown + sums.shown;
    let unshown = total.unshown + sums.unshown;
    let tapes = total.tapes + 1;
    Ok(Total {
        shown,
        unshown,
        tapes,
    })
}
