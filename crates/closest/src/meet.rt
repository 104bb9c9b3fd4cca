// Where types meet, found for all wanted types in one walk along the rows' levels.
ghost use Rattle.std.specs.Prelude.{◌≡◌, ◌+◌, ◌≤◌, length};
ghost use Rattle.paper.specs.Format.{most_rows, most_entries};
ghost use Rattle.closest.specs.Runs.{SoundRows, LevelsOf, Rows};
ghost use Rattle.closest.specs.Deepest.{Onward, Deepened, no_meetings, Meetings};

use paper::Format;

// Each row's level, into the lent list.
pub fn row_levels(table: &[u8], f: Format, rows: usize, levels: &mut [u8])
    requires { SoundRows f rows table.now × (length levels.old ≡ most_rows) }
    ensures { LevelsOf f rows table.now levels.new }
{
    let w = octets::row_bytes(f);
    for i in 0..rows {
        let row = octets::record(table, w, i);
        levels[i] = row[0];
    }
}

// How deep a row of type k and level l meets the rows of each wanted type at or before it, where the row before it meets them at `near`:
// a row meets the next one just above the level of the next.
fn onward(near: [u8; 16], wanted: [u8; 16], k: u8, l: u8) -> [u8; 16]
    requires { 1 ≤ l }
    ensures { Onward wanted k l near result }
{
    let up = l - 1;
    let mut on = near;
    for e in 0..16 {
        let on_the_way = if near[e] < up { near[e] } else { up };
        on[e] = if wanted[e] == k { l } else { on_the_way };
    }
    on
}

// The deeper of the two, place by place.
fn deepen(deepest: &mut [u8], at: usize, near: [u8; 16])
    requires { at + most_entries ≤ length deepest.old }
    ensures { Deepened most_entries at near deepest.old deepest.new }
{
    for e in 0..16 {
        let d = deepest[at + e];
        deepest[at + e] = if d < near[e] { near[e] } else { d };
    }
}

// How deep the rows of each type meet those of each wanted type at or before them, 16 places a type, into the lent list of zeros. Two types
// meet at the deeper of their two places.
pub fn meetings(levels: &[u8], types: &[u8], rows: usize, wanted: [u8; 16], deepest: &mut [u8])
    requires { Rows rows levels.now types.now × (deepest.old ≡ no_meetings) }
    ensures { Meetings rows levels.now types.now wanted deepest.new }
{
    let mut near = [0u8; 16];
    for i in 0..rows {
        let k = types[i];
        let next = onward(near, wanted, k, levels[i]);
        near = next;
        deepen(deepest, 16 * octets::wide(k), near);
    }
}
