// A tape that is taken into a total, and its line.
ghost use Rattle.std.specs.Prelude.{◌≡◌, ◌≤◌, length};
ghost use Rattle.io.specs.Counts.{IsPrefixLen};
ghost use Rattle.paper.specs.Widths.{format_of};
ghost use Rattle.names.specs.Put.{Put};
ghost use Rattle.totals.specs.Total.{take_in};
ghost use Rattle.totals.specs.Told.{tape, taken};
ghost use Rattle.billing.specs.Billing.{most_name, tape_text};

use crate::text::{put_counted, put_not_counted};
use paper::Width;
use totals::{NotTaken, Total};

// What taking a tape in answers, the total afterwards or its refusal, and the bytes of the tape's line.
#[derive(Clone, Copy, Drop)]
pub struct Billed {
    pub taken: Result<Total, NotTaken>,
    pub bytes: usize,
}

// Takes a tape in and puts its line, under the folder's name, at the front of the buffer. What the tape adds is what the total has grown by.
pub fn put_taken(
    out: &mut [u8; 4096],
    name: &[u8],
    total: Total,
    width: Width,
    table: &[u8],
    shape: &[u8],
    entry: usize,
) -> Billed
    requires { length name.now ≤ most_name }
    ensures fact { let t = tape (format_of width) table.now shape.now entry in
        Put out.old 0 (tape_text name.now total t) out.new result.bytes
        × (taken result.taken ≡ take_in total t) }
    ensures prefix_len { IsPrefixLen result.bytes out.new }
{
    let taken = totals::take_in(total, width, table, shape, entry);
    let bytes = match taken {
        Ok(after) => {
            let shown = after.shown - total.shown;
            let unshown = after.unshown - total.unshown;
            put_counted(out, name, shown, unshown)
        }
        Err(left) => put_not_counted(out, name, left.refusal.number(), left.refusal.place()),
    };
    Billed { taken, bytes }
}
