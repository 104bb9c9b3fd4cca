// Where types meet, and the runs of rows that agree to a level. Rows stand in document order, so that levels tell where rows meet: a row
// meets the next one just above the level of the next, and the rows that agree with a row to a level are one unbroken run.
#![tactic(auto)]

pub mod meet;
pub mod rows;
pub mod runs;

ghost use Rattle.std.specs.Prelude.{◌≡◌, ◌≤◌, eqb, length, take};
ghost use Rattle.paper.specs.Lists.{keep};

// How many of the rows are of type k. A plain count, which is compiled to count several rows at once; a chain with a filter is not.
pub fn count_rows(types: &[u8], rows: usize, k: usize) -> usize
    requires { rows ≤ length types.now }
    ensures { (result ≡ length (keep (λ x. eqb x k) (take rows types.now))) × (result ≤ rows) }
{
    let mut c = 0;
    for i in 0..rows {
        if octets::wide(types[i]) == k {
            c += 1;
        }
    }
    c
}
