// One row, and two: its own fields, how far two rows agree, and whether one follows the other.
ghost use Rattle.std.specs.Prelude.{◌≡◌, true, ◌+◌, ◌*◌, ◌≤◌, ◌<◌, min, eqb, leb, length, get_or, drop};
ghost use Rattle.paper.specs.Lists.{all};
ghost use Rattle.paper.specs.Format.{row_bytes, entry_bytes, byte, words};
ghost use Rattle.paper.specs.Tables.{row_of, dewey, fields_kept, follows};
ghost use Rattle.paper.specs.Closeness.{shared};

use paper::Format;

// Number k of the list that a record holds: a component of a row's Dewey number, a label of an entry's type.
pub fn component(row: &[u8], f: Format, k: usize) -> usize
    requires { (entry_bytes f ≤ length row.now) × (k < f.levels) × (f.levels ≤ 255) }
    ensures { (result ≡ get_or (words f.levels row.now 4) k 0) × (result < 65536) }
{
    octets::word(row, 4 + 2 * k)
}

// Are the numbers of that list from k on zero?
pub fn zeros_from(row: &[u8], f: Format, k: usize) -> bool
    requires { (entry_bytes f ≤ length row.now) × (f.levels ≤ 255) }
    ensures { result ≡ all (eqb 0) (drop k (words f.levels row.now 4)) }
{
    for i in k..f.levels {
        if component(row, f, i) != 0 {
            return false;
        }
    }
    true
}

// Do a row's own fields keep the rules?
pub fn fields_kept(row: &[u8], f: Format) -> bool
    requires { (length row.now ≡ row_bytes f) × (f.levels ≤ 255) }
    ensures { result ≡ fields_kept f (row_of f row.now) }
{
    let level = octets::wide(row[0]);
    let label = octets::word(row, 2);
    if level < 1 {
        return false;
    }
    if f.levels < level {
        return false;
    }
    if row[1] != 0 {
        return false;
    }
    if label < 1 {
        return false;
    }
    if f.labels < label {
        return false;
    }
    zeros_from(row, f, level)
}

pub fn smaller(a: usize, b: usize) -> usize
    ensures { result ≡ min a b }
{
    if a < b { a } else { b }
}

// Do two rows agree in their first n components? They do where they meet at n or deeper.
fn agree(x: &[u8], y: &[u8], f: Format, n: usize) -> bool
    requires x_len { (length x.now ≡ row_bytes f) × (length y.now ≡ row_bytes f) × (f.levels ≤ 255) }
    requires x_bound { (byte x.now 0 ≤ f.levels) × (byte y.now 0 ≤ f.levels) × (n ≤ byte x.now 0) × (n ≤ byte y.now 0) }
    ensures { result ≡ leb n (shared (dewey (row_of f x.now)) (dewey (row_of f y.now))) }
{
    for k in 0..n {
        if component(x, f, k) != component(y, f, k) {
            return false;
        }
    }
    true
}

// Does the Dewey number of `row` follow that of `before`?
pub fn follows(before: &[u8], row: &[u8], f: Format) -> bool
    requires before_len { (length before.now ≡ row_bytes f) × (length row.now ≡ row_bytes f) × (f.levels ≤ 255) }
    requires before_bound { (byte before.now 0 ≤ f.levels) × (byte row.now 0 ≤ f.levels) × (1 ≤ byte row.now 0) }
    ensures { result ≡ follows (dewey (row_of f before.now)) (dewey (row_of f row.now)) }
{
    let a = octets::wide(before[0]);
    let b = octets::wide(row[0]);
    if a + 1 < b {
        return false;
    }
    let k = b - 1;
    if !agree(before, row, f, k) {
        return false;
    }
    let last = component(row, f, k);
    if a < b {
        return last == 1;
    }
    last == component(before, f, k) + 1
}
