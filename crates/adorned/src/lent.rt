// Adorning into lent summaries: the figures are computed by value, and then stored, one a type.
ghost use Rattle.std.specs.Prelude.{◌≡◌, ◌++◌, ◌≤◌, length, map, take, drop};
ghost use Rattle.octets.specs.Served.{Served};
ghost use Rattle.paper.specs.Calls.{adorn};
ghost use Rattle.paper.specs.Format.{most_types};
ghost use Rattle.closest.specs.Runs.{Rows};
ghost use Rattle.adorned.specs.Lent.{told, adorned_types};
ghost use Rattle.adorned.specs.Told.{Stored};

use crate::{TypeSummary, no_summaries, put_summaries, read_types};
use closest::rows::RowsRead;
use paper::Format;
use paper::refusal::Refusal;

// Stores the first summaries, so many, at the front of what was lent: one by one, since a copy of a slice would be compiled so as to look first
// whether the two lie over each other.
pub fn store(summaries: &mut [TypeSummary], all: &[TypeSummary; 64], count: usize)
    requires { (count ≤ length summaries.old) × (count ≤ 64) }
    ensures { summaries.new ≡ take count all.now ++ drop count summaries.old }
{
    for k in 0..count {
        summaries[k] = all[k];
    }
}

// The summaries of the types of a table whose rows were read, found by value and then stored at the front of what was lent. They are put into
// the one list that is stored from: `summaries_of` would hand out 3,000 bytes, to be moved before they are stored.
fn store_found(read: RowsRead, levels: &[u8], types: &[u8], summaries: &mut [TypeSummary])
    requires { Rows read.rows levels.now types.now × (read.count ≤ most_types) × (read.count ≤ length summaries.old) }
    ensures { Stored read levels.now types.now summaries.old summaries.new }
{
    let count = read.count;
    let mut all = no_summaries();
    put_summaries(read, levels, types, &mut all);
    store(summaries, &all, count);
}

// Adorns a table: refusals 1 to 4, then 10, or the count of types, with one summary a type at the front of what was lent; what lies past
// them stays as it was. It doesn't go by `adorn_by_value`, whose answer of 3,000 bytes would be moved out of its `Result` before it is stored.
pub fn adorn(table: &[u8], f: Format, summaries: &mut [TypeSummary]) -> Result<usize, Refusal>
    requires { Served f }
    ensures result_value { adorned_types result ≡ (adorn f table.now (map told summaries.old)).reply }
    ensures summaries_after { map told summaries.new ≡ (adorn f table.now (map told summaries.old)).summaries }
{
    let mut levels = [0u8; 1024];
    let mut types = [0u8; 1024];
    let read = read_types(table, f, summaries.len(), &mut levels, &mut types)?;
    let count = read.count;
    store_found(read, &levels, &types, summaries);
    Ok(count)
}
