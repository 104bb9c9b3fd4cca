// The next row of each row's type, by type numbers.
ghost use Rattle.std.specs.Prelude.{ℕ, ◌≤◌, ◌<◌, length, get_or};
ghost use Rattle.paper.specs.Format.{most_rows, most_types};
ghost use Rattle.closest.specs.Runs.{NextRow};
ghost use Rattle.indexes.specs.Wrong.{FirstWrong};

// The first row at whose place the list does not have the next row of its type.
pub fn wrong_next(types: &[u8], rows: usize, next: &[u16]) -> Option<usize>
    requires few { (rows ≤ most_rows) × (rows ≤ length types.now) × (rows ≤ length next.now) }
    requires typed { (i : ℕ) → i < rows → get_or types.now i 0 < most_types }
    ensures { FirstWrong rows (NextRow rows types.now) next.now result }
{
    let mut seen = [65535u16; 64];
    let mut wrong = None;
    for i in (0..rows).rev() {
        let k = octets::wide(types[i]);
        let after = seen[k];
        seen[k] = i as u16;
        wrong = if next[i] == after { wrong } else { Some(i) };
    }
    wrong
}
