// The labels of the records of a file: n of them in each, from byte `from` on. A row has one, at byte 2; an entry has one for each level, at
// byte 4, zeros past its type. Zero is no label: it is in no list and stays zero.
ghost use Rattle.std.specs.Prelude.{◌≡◌, map, ◌+◌, ◌*◌, ◌≤◌, ◌<◌, eqb, length, get_or};
ghost use Rattle.std.proofs.lemmas.List.Edits.{sets};
ghost use Rattle.paper.specs.Lists.{any, place, join_map};
ghost use Rattle.paper.specs.Format.{bytes, words, records, whole};
ghost use Rattle.paper.specs.Labels.{pairs, converted, record_with};
ghost use Rattle.paper.specs.Refusals.{found};
ghost use Rattle.octets.specs.Served.{most_bytes};
ghost use Rattle.tables.specs.Place.{place_of};
ghost use Rattle.labels.specs.Records.{has_label, any_unlisted, file_labels};

use crate::pairs::{convert_label, is_unlisted};
use paper::Format;

// Label k of a record.
fn label_at(r: &[u8], from: usize, n: usize, k: usize) -> usize
    requires { (from + 2 * n ≤ length r.now) × (k < n) × (n ≤ most_bytes) × (from ≤ most_bytes) }
    ensures { (result ≡ get_or (words n r.now from) k 0) × (result < 65536) }
{
    octets::word(r, from + 2 * k)
}

// Does a record have the label x?
fn has_label(r: &[u8], from: usize, n: usize, x: usize) -> bool
    requires { (from + 2 * n ≤ length r.now) × (n ≤ most_bytes) × (from ≤ most_bytes) }
    ensures { result ≡ has_label from n x r.now }
{
    (0..n).any(|k| label_at(r, from, n, k) == x)
}

// Does one of the records of w bytes?
pub fn file_has(b: &[u8], w: usize, count: usize, from: usize, n: usize, x: usize) -> bool
    requires { (from + 2 * n ≤ w) × (w ≤ most_bytes) × (count ≡ whole w b.now) }
    ensures { result ≡ any (eqb x) (file_labels w count from n b.now) }
{
    (0..count).any(|i| has_label(octets::record(b, w, i), from, n, x))
}

// Has a record a label that is too large and not in the list?
fn has_unlisted(r: &[u8], from: usize, n: usize, list: &[u16], f: Format) -> bool
    requires { (from + 2 * n ≤ length r.now) × (n ≤ most_bytes) × (from ≤ most_bytes) }
    ensures { result ≡ any_unlisted f (pairs list.now) from n r.now }
{
    (0..n).any(|k| is_unlisted(list, f, label_at(r, from, n, k)))
}

// The first record of w bytes that has.
pub fn first_unlisted(
    b: &[u8],
    w: usize,
    count: usize,
    from: usize,
    n: usize,
    list: &[u16],
    f: Format,
) -> Option<usize>
    requires { (from + 2 * n ≤ w) × (w ≤ most_bytes) × (count ≡ whole w b.now) }
    ensures { found result ≡ place_of (place (any_unlisted f (pairs list.now) from n) (records w count b.now)) count }
{
    (0..count).position(|i| has_unlisted(octets::record(b, w, i), from, n, list, f))
}

// What the labels of a record become, put at a place.
fn put_labels(r: &[u8], from: usize, n: usize, list: &[u16], new: &mut [u8], at: usize)
    requires { (from + 2 * n ≤ length r.now) × (n ≤ most_bytes) × (from ≤ most_bytes) × (at + 2 * n ≤ length new.old) }
    ensures { new.new ≡ sets new.old at (join_map (bytes 2) (map (converted (pairs list.now)) (words n r.now from))) }
{
    for k in 0..n {
        let label = convert_label(list, label_at(r, from, n, k));
        octets::put_word(new, at + 2 * k, label as u16);
    }
}

// A record with its labels converted, put at a place; its other bytes stay.
fn put_record(r: &[u8], from: usize, n: usize, list: &[u16], new: &mut [u8], at: usize)
    requires { (from + 2 * n ≤ length r.now) × (n ≤ most_bytes) × (from ≤ most_bytes) × (at + length r.now ≤ length new.old) }
    ensures { new.new ≡ sets new.old at (record_with (pairs list.now) from n r.now) }
{
    let past = from + 2 * n;
    octets::put(new, at, &r[..from]);
    put_labels(r, from, n, list, new, at + from);
    octets::put(new, at + past, &r[past..]);
}

// The records of w bytes, one after the other, at the front of new.
pub fn put_records(
    b: &[u8],
    w: usize,
    count: usize,
    from: usize,
    n: usize,
    list: &[u16],
    new: &mut [u8],
)
    requires { (from + 2 * n ≤ w) × (w ≤ most_bytes) × (count ≡ whole w b.now) × (w * count ≤ length new.old) }
    ensures { new.new ≡ sets new.old 0 (join_map (record_with (pairs list.now) from n) (records w count b.now)) }
{
    for i in 0..count {
        put_record(octets::record(b, w, i), from, n, list, new, w * i);
    }
}
