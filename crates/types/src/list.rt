// The type list of a sound table, in one pass.
ghost use Rattle.std.specs.Prelude.{◌≡◌, ◌+◌, ◌*◌, ◌≤◌, ◌<◌, length, MatchOption};
ghost use Rattle.std.proofs.Math.Option.{none};
ghost use Rattle.paper.specs.Format.{most_rows, row_bytes, whole};
ghost use Rattle.paper.specs.Tables as Tables;
ghost use Rattle.paper.specs.Tables.{bad_row};
ghost use Rattle.types.specs.Types.{ListsTypes, Found, FoundNear, NotListed};

use paper::Format;
use paper::refusal::Refusal;

// How many types there are, and of each its parent type (64 for none) and last label.
#[derive(Clone, Copy, Drop)]
pub struct Types {
    pub count: usize,
    pub parents: [u8; 64],
    pub labels: [u16; 64],
}

// The first listed type with this parent and label.
pub fn find_type(parents: &[u8], labels: &[u16], count: usize, p: u8, a: u16) -> Option<usize>
    requires { (count ≤ length parents.now) × (count ≤ length labels.now) }
    ensures { MatchOption result (NotListed parents.now labels.now count p a) (Found parents.now labels.now count p a) }
{
    for k in 0..count {
        if parents[k] == p && labels[k] == a {
            return Some(k);
        }
    }
    None
}

// A listed type with this parent and label. It is looked for at two guesses first.
fn find_near(
    parents: &[u8],
    labels: &[u16],
    count: usize,
    p: u8,
    a: u16,
    guess: usize,
    other: usize,
) -> Option<usize>
    requires { (count ≤ length parents.now) × (count ≤ length labels.now) }
    ensures { MatchOption result (NotListed parents.now labels.now count p a) (FoundNear parents.now labels.now count p a) }
{
    if guess < count && parents[guess] == p && labels[guess] == a {
        return Some(guess);
    }
    if other < count && parents[other] == p && labels[other] == a {
        return Some(other);
    }
    find_type(parents, labels, count, p, a)
}

// Refusal 4, or the type list of a table that keeps the row rules, and each row's type number in the lent list. What came last after a row of the same
// type is the first guess for a row's type: `after` has it for each type, and for none before the first row. Where rows follow each other
// without a pattern this guess is mostly wrong, and a search is dear: the second guess is the last type that is listed at the place of the
// row's parent and label in `near`.
#[tactic(auto, using(crate::proofs::Listed::level_some, crate::proofs::Listed::level_most, tables::proofs::Rows::row_in))]
pub fn list_types(table: &[u8], f: Format, rows: usize, types: &mut [u8]) -> Result<Types, Refusal>
    requires rows_value { (rows ≡ whole (row_bytes f) table.now) × (rows ≤ most_rows) × (f.levels ≤ 8) }
    requires table_value { (bad_row f (Tables.rows f table.now) ≡ none) × (length types.old ≡ most_rows) }
    ensures { ListsTypes (Tables.rows f table.now) types.new result }
{
    let mut parents = [0u8; 64];
    let mut labels = [0u16; 64];
    let mut stack = [0u8; 9];
    stack[0] = 64;
    let mut after = [0u8; 65];
    let mut last = 64;
    let mut near = [0u8; 512];
    let mut count = 0;
    for i in 0..rows {
        let row = octets::record(table, octets::row_bytes(f), i);
        let l = octets::wide(row[0]);
        let a = octets::word(row, 2) as u16;
        let p = stack[l - 1];
        let at = (8 * octets::wide(p) + octets::wide16(a)) % 512;
        let guess = octets::wide(after[last]);
        let other = octets::wide(near[at]);
        match find_near(&parents, &labels, count, p, a, guess, other) {
            Some(k) => {
                types[i] = k as u8;
                stack[l] = k as u8;
                after[last] = k as u8;
                last = k;
            }
            None => {
                if count == 64 {
                    return Err(Refusal::TooManyTypes(i));
                }
                parents[count] = p;
                labels[count] = a;
                types[i] = count as u8;
                stack[l] = count as u8;
                after[last] = count as u8;
                near[at] = count as u8;
                last = count;
                count += 1;
            }
        }
    }
    Ok(Types {
        count,
        parents,
        labels,
    })
}
