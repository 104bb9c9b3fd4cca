// The archive for C: both calls of `totals_c` under the names that `include/totals.h` declares, with the same promise. A crate is a library or an archive, not
// both, and `totals_c` is the library. `tools/staticlib totals_c` builds this one and puts it where C programs look for it, target/staticlib/libtotals_c.a.
#![tactic(auto)]

ghost use Rattle.std.specs.Prelude.{◌≡◌, ◌+ℤ◌};
ghost use Rattle.totals.specs.Tape.{sum_tape, sum_of_type};
ghost use Rattle.totals.specs.Total.{take_in};
ghost use Rattle.totals.specs.Told.{tape};
ghost use Rattle.totals_c.specs.Numbered.{format_numbered};
ghost use Rattle.totals_c.specs.Told.{told_sums, told_taken};

use totals::Total;
use totals_c::answers::{TakenIn, TapeSumsNumbers};

// Refusals 1 to 8, 16 and 17, or both sums of the entry.
#[unsafe(no_mangle)]
pub extern "C" fn totals_sum_tape(
    width: u32,
    table: &[u8],
    shape: &[u8],
    entry: usize,
) -> TapeSumsNumbers
    ensures result_value { told_sums result ≡ sum_tape (tape (format_numbered width) table.now shape.now entry) }
    ensures unshown_value { result.number ≡ 0 → result.shown +ℤ result.unshown ≡ sum_of_type (tape (format_numbered width) table.now shape.now entry) }
{
    totals_c::totals_sum_tape(width, table, shape, entry)
}

// Refusals 1 to 8, 16, 17 and 18, with the total as it was handed in, or the total with this tape.
#[unsafe(no_mangle)]
pub extern "C" fn totals_take_in(
    total: Total,
    width: u32,
    table: &[u8],
    shape: &[u8],
    entry: usize,
) -> TakenIn
    ensures { told_taken result ≡ take_in total (tape (format_numbered width) table.now shape.now entry) }
{
    totals_c::totals_take_in(total, width, table, shape, entry)
}
