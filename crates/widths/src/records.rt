// Records of one format as records of another: the list that a record holds is cut, or filled with zeros behind, and what stands past
// it stays.
ghost use Rattle.std.specs.Prelude.{◌≡◌, ◌+◌, ◌*◌, ◌-◌, ◌≤◌, length, get_or, take};
ghost use Rattle.std.proofs.lemmas.List.Edits.{sets};
ghost use Rattle.paper.specs.Lists.{place, join_map, padded};
ghost use Rattle.paper.specs.Format.{records, whole};
ghost use Rattle.paper.specs.Refusals.{found};
ghost use Rattle.octets.specs.Served.{most_bytes};
ghost use Rattle.tables.specs.Place.{place_of};
ghost use Rattle.widths.specs.Moves.{fitted, moved_bytes, record_deep};

// The first `from` bytes of a record, cut or filled with zeros to `to`, put at a place.
fn put_list(r: &[u8], from: usize, to: usize, new: &mut [u8], at: usize)
    requires { (from ≤ length r.now) × (at + to ≤ length new.old) }
    ensures { new.new ≡ sets new.old at (padded to (take from r.now)) }
{
    for k in 0..to {
        new[at + k] = if k < from { r[k] } else { 0 };
    }
}

// The same, and the rest of the record behind it.
fn move_record(r: &[u8], from: usize, to: usize, new: &mut [u8], at: usize)
    requires { (from ≤ length r.now) × (at + to + (length r.now - from) ≤ length new.old) }
    ensures { new.new ≡ sets new.old at (fitted from to r.now) }
{
    put_list(r, from, to, new, at);
    octets::put(new, at + to, &r[from..]);
}

// The bytes that a record of w bytes has once it is moved.
pub fn moved_bytes(w: usize, from: usize, to: usize) -> usize
    requires { (from ≤ w) × (w ≤ most_bytes) × (to ≤ most_bytes) }
    ensures { result ≡ moved_bytes w from to }
{
    to + (w - from)
}

// The records of w bytes, one after the other, at the front of new.
pub fn move_records(b: &[u8], w: usize, count: usize, from: usize, to: usize, new: &mut [u8])
    requires from_le_w { (from ≤ w) × (w ≤ most_bytes) × (to ≤ most_bytes) }
    requires count_value { (count ≡ whole w b.now) × (moved_bytes w from to * count ≤ length new.old) }
    ensures { new.new ≡ sets new.old 0 (join_map (fitted from to) (records w count b.now)) }
{
    let each = moved_bytes(w, from, to);
    for i in 0..count {
        move_record(octets::record(b, w, i), from, to, new, each * i);
    }
}

// Is a record too deep for so many levels? Its first two bytes are an entry's level and the length of its type; in a row the second is zero.
fn is_deep(r: &[u8], levels: usize) -> bool
    requires { 2 ≤ length r.now }
    ensures { result ≡ record_deep levels r.now }
{
    levels < octets::wide(r[0]) || levels < octets::wide(r[1])
}

// The first record of w bytes that is too deep.
pub fn first_deep(b: &[u8], w: usize, count: usize, levels: usize) -> Option<usize>
    requires { (2 ≤ w) × (count ≡ whole w b.now) }
    ensures { found result ≡ place_of (place (record_deep levels) (records w count b.now)) count }
{
    (0..count).find(|i| is_deep(octets::record(b, w, *i), levels))
}
