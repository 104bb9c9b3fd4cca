// What the calls answer in C: a refusal as its number and place, zeros for none, beside what is given. `include/silmezga.h` names the third number of
// a count by what is counted: rows, types, lines, entries or bytes.
ghost use Rattle.std.specs.Prelude.{◌≡◌, [], ◌∷◌};
ghost use Rattle.paper.specs.Refusals.{counted};
ghost use Rattle.labels.specs.Answers.{converted};
ghost use Rattle.reshaping.specs.Reshaped.{summarised};
ghost use Rattle.silmezga_c.specs.Told.{as_number, in_four};
ghost use Rattle.silmezga_c.specs.Numbers.{told_count, told_summary, told_converted, told_of, judged_numbers};

use silmezga::{Converted, Judged, Refusal, Summary, Verdict};

// A refusal, or a count.
#[repr(C)]
#[derive(Clone, Copy, Drop)]
pub struct Counted {
    pub number: usize,
    pub place: usize,
    pub count: usize,
}

impl From<Result<usize, Refusal>> for Counted {
    ghost from_gives = { λ answer told. told_count told ≡ counted answer };

    fn from(answer: Result<usize, Refusal>) -> Counted {
        match answer {
            Ok(count) => Counted {
                number: 0,
                place: 0,
                count,
            },
            Err(refusal) => Counted {
                number: refusal.number(),
                place: refusal.place(),
                count: 0,
            },
        }
    }
}

// A refusal, or the counts of rows and entries.
#[repr(C)]
#[derive(Clone, Copy, Drop)]
pub struct ConvertedNumbers {
    pub number: usize,
    pub place: usize,
    pub rows: usize,
    pub entries: usize,
}

impl From<Result<Converted, Refusal>> for ConvertedNumbers {
    ghost from_gives = { λ answer told. told_converted told ≡ converted answer };

    fn from(answer: Result<Converted, Refusal>) -> ConvertedNumbers {
        match answer {
            Ok(c) => ConvertedNumbers {
                number: 0,
                place: 0,
                rows: c.rows,
                entries: c.entries,
            },
            Err(refusal) => ConvertedNumbers {
                number: refusal.number(),
                place: refusal.place(),
                rows: 0,
                entries: 0,
            },
        }
    }
}

// A refusal, or for each of 16 entries its lines, source rows, copies and different source rows.
#[repr(C)]
#[derive(Clone, Copy, Drop)]
pub struct SummaryNumbers {
    pub number: usize,
    pub place: usize,
    pub lines: [usize; 16],
    pub rows: [usize; 16],
    pub copies: [usize; 16],
    pub different: [usize; 16],
}

impl From<Result<Summary, Refusal>> for SummaryNumbers {
    ghost from_gives = { λ answer told. told_summary told ≡ summarised answer };

    fn from(answer: Result<Summary, Refusal>) -> SummaryNumbers {
        match answer {
            Ok(s) => {
                let lines = s.lines;
                let rows = s.rows;
                let copies = s.copies;
                let different = s.different;
                SummaryNumbers {
                    number: 0,
                    place: 0,
                    lines,
                    rows,
                    copies,
                    different,
                }
            }
            Err(refusal) => SummaryNumbers {
                number: refusal.number(),
                place: refusal.place(),
                lines: [0; 16],
                rows: [0; 16],
                copies: [0; 16],
                different: [0; 16],
            },
        }
    }
}

// A refusal, or document 01's number of the verdict and its two values, zeros for verdict 0, the second answer, 1 for yes and 0 for no, and for
// each entry but the first the least and the greatest number of children under a row of its parent entry's type, and of parents of a row of its
// own; entry 0 and unused entries hold zeros.
#[repr(C)]
#[derive(Clone, Copy, Drop)]
pub struct JudgedNumbers {
    pub number: usize,
    pub place: usize,
    pub verdict: usize,
    pub first: usize,
    pub second: usize,
    pub none_apart: usize,
    pub least_children: [usize; 16],
    pub greatest_children: [usize; 16],
    pub least_parents: [usize; 16],
    pub greatest_parents: [usize; 16],
}

// What was judged, with the verdict in these numbers.
fn in_numbers(j: Judged, verdict: usize, first: usize, second: usize) -> JudgedNumbers
    ensures { in_four result ≡ told_of j (verdict ∷ first ∷ second ∷ as_number j.none_apart ∷ []) }
{
    let least_children = j.least_children;
    let greatest_children = j.greatest_children;
    let least_parents = j.least_parents;
    let greatest_parents = j.greatest_parents;
    JudgedNumbers {
        number: 0,
        place: 0,
        verdict,
        first,
        second,
        none_apart: if j.none_apart { 1 } else { 0 },
        least_children,
        greatest_children,
        least_parents,
        greatest_parents,
    }
}

impl From<Result<Judged, Refusal>> for JudgedNumbers {
    ghost from_gives = { λ answer told. in_four told ≡ judged_numbers answer };

    fn from(answer: Result<Judged, Refusal>) -> JudgedNumbers {
        match answer {
            Ok(j) => {
                let verdict = j.verdict;
                match verdict {
                    Verdict::Kept => in_numbers(j, 0, 0, 0),
                    Verdict::Missing { entry, row } => in_numbers(j, 1, entry, row),
                    Verdict::Apart { first, second } => in_numbers(j, 2, first, second),
                    Verdict::Unsure { first, second } => in_numbers(j, 3, first, second),
                }
            }
            Err(refusal) => JudgedNumbers {
                number: refusal.number(),
                place: refusal.place(),
                verdict: 0,
                first: 0,
                second: 0,
                none_apart: 0,
                least_children: [0; 16],
                greatest_children: [0; 16],
                least_parents: [0; 16],
                greatest_parents: [0; 16],
            },
        }
    }
}
