// The figures of a summary beside its lines: for each entry the rows of its type, copies, and different rows.
ghost use Rattle.std.specs.Prelude.{ℕ, ◌+◌, ◌*◌, ◌≤◌, ◌<◌, ◌≡◌, length, get_or};
ghost use Rattle.paper.specs.Format.{most_rows, most_entries};
ghost use Rattle.reshaping.specs.Figures.{held_by, different_in, Figured};

use crate::summarise::Summary;

// An entry's rows: those of its type, and how many different ones its lines show.
#[derive(Clone, Copy, Drop)]
struct EntryRows {
    held: usize,
    different: usize,
}

// The rows of type k, which is entry e's. A row that the entry's lines show counts once among the different ones, however often they show it.
fn entry_rows(types: &[u8], rows: usize, k: u8, shows: &[u16], e: usize) -> EntryRows
    requires { (rows ≤ length types.now) × (rows ≤ most_rows) × (most_rows * e + rows ≤ length shows.now) }
    ensures held_value { result.held ≡ held_by types.now rows k }
    ensures different_value { result.different ≡ different_in types.now rows k shows.now e }
{
    let entry_at = 1024 * e;
    let mut held = 0;
    let mut different = 0;
    for i in 0..rows {
        if types[i] == k {
            held += 1;
            different += octets::wide16(shows[entry_at + i]).min(1);
        }
    }
    EntryRows { held, different }
}

// The summary of a reshape that is accepted, from the lines of each entry and from how often they show each row. No line is walked.
pub fn figures_of(
    types: &[u8],
    rows: usize,
    wanted: [u8; 16],
    entries: usize,
    shows: &[u16],
    lines: [usize; 16],
) -> Summary
    requires rows_in_bounds { (rows ≤ length types.now) × (rows ≤ most_rows) × (entries ≤ most_entries) × (most_entries * most_rows ≤ length shows.now) }
    requires by_index { (e : ℕ) → e < entries → different_in types.now rows (get_or wanted e 0) shows.now e ≤ get_or lines e 0 }
    ensures { Figured types.now rows wanted entries shows.now lines result }
{
    let mut held = [0; 16];
    let mut copies = [0; 16];
    let mut different = [0; 16];
    for e in 0..entries {
        let r = entry_rows(types, rows, wanted[e], shows, e);
        held[e] = r.held;
        copies[e] = lines[e] - r.different;
        different[e] = r.different;
    }
    Summary {
        lines,
        rows: held,
        copies,
        different,
    }
}
