// What both calls answer in C: a refusal as its number and place, zeros for none, beside what is given. `include/totals.h` declares both structs.
ghost use Rattle.std.specs.Prelude.{◌≡◌};
ghost use Rattle.totals.specs.Told.{summed, taken};
ghost use Rattle.totals_c.specs.Told.{told_sums, told_taken};

use silmezga::Refusal;
use totals::{NotTaken, TapeSums, Total};

// A refusal, or both sums.
#[repr(C)]
#[derive(Clone, Copy, Drop)]
pub struct TapeSumsNumbers {
    pub number: usize,
    pub place: usize,
    pub shown: i64,
    pub unshown: i64,
}

impl From<Result<TapeSums, Refusal>> for TapeSumsNumbers {
    ghost from_gives = { λ answer told. told_sums told ≡ summed answer };

    fn from(answer: Result<TapeSums, Refusal>) -> TapeSumsNumbers {
        match answer {
            Ok(sums) => TapeSumsNumbers {
                number: 0,
                place: 0,
                shown: sums.shown,
                unshown: sums.unshown,
            },
            Err(refusal) => TapeSumsNumbers {
                number: refusal.number(),
                place: refusal.place(),
                shown: 0,
                unshown: 0,
            },
        }
    }
}

// A refusal, and the total as it was handed in; or the total with the tape.
#[repr(C)]
#[derive(Clone, Copy, Drop)]
pub struct TakenIn {
    pub number: usize,
    pub place: usize,
    pub total: Total,
}

// The answer that says so.
pub fn taken_in(answer: Result<Total, NotTaken>) -> TakenIn
    ensures { told_taken result ≡ taken answer }
{
    match answer {
        Ok(total) => TakenIn {
            number: 0,
            place: 0,
            total,
        },
        Err(left) => TakenIn {
            number: left.refusal.number(),
            place: left.refusal.place(),
            total: left.total,
        },
    }
}
