// Both calls for programs in C and Rust: the same calls and the same promises as those of `totals`, under C's calling convention. The width is told by its
// levels, as in `silmezga_c`: 8 is eight levels, and every other number six. `include/totals.h` declares both, and `totals_c_c`, built over this crate as an
// archive, exports them. Neither asks anything of its caller beyond slices that are there.
#![tactic(auto)]

pub mod answers;

ghost use Rattle.std.specs.Prelude.{◌≡◌, ◌+ℤ◌};
ghost use Rattle.totals.specs.Tape.{sum_tape, sum_of_type};
ghost use Rattle.totals.specs.Total.{take_in};
ghost use Rattle.totals.specs.Told.{tape};
ghost use Rattle.totals_c.specs.Numbered.{width_of, format_numbered};
ghost use Rattle.totals_c.specs.Told.{told_sums, told_taken};

use answers::{TakenIn, TapeSumsNumbers, taken_in};
use silmezga::Width;
use totals::Total;

// The width that a number names.
fn width_of(number: u32) -> Width
    ensures { result ≡ width_of number }
{
    if number == 8 {
        return Width::Eight;
    }
    Width::Six
}

// Refusals 1 to 8, 16 and 17, or both sums of the entry.
#[unsafe(no_mangle)]
pub extern "C" fn totals_sum_tape(
    width: u32,
    table: &[u8],
    shape: &[u8],
    entry: usize,
) -> TapeSumsNumbers
    ensures result_value { told_sums result ≡ sum_tape (tape (format_numbered width) table.now shape.now entry) }
    ensures unshown_value { result.number ≡ 0 → result.shown +ℤ result.unshown ≡ sum_of_type (tape (format_numbered width) table.now shape.now entry) }
{
    totals::sum_tape(width_of(width), table, shape, entry).into()
}

// Refusals 1 to 8, 16, 17 and 18, with the total as it was handed in, or the total with this tape.
#[unsafe(no_mangle)]
pub extern "C" fn totals_take_in(
    total: Total,
    width: u32,
    table: &[u8],
    shape: &[u8],
    entry: usize,
) -> TakenIn
    ensures { told_taken result ≡ take_in total (tape (format_numbered width) table.now shape.now entry) }
{
    taken_in(totals::take_in(total, width_of(width), table, shape, entry))
}
