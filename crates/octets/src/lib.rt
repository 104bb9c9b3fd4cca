// Numbers and records read from lent bytes, and bytes put into them. Every function here asks its caller for bytes that are there, and
// a reader's contract is a definition of the paper; what the numbers mean is left to the layers above.
#![tactic(auto)]

ghost use Rattle.std.specs.Prelude.{◌≡◌, ◌+◌, ◌*◌, ◌≤◌, ◌<◌, length, take, drop};
ghost use Rattle.std.proofs.lemmas.List.Edits.{sets};
ghost use Rattle.paper.specs.Format.{row_bytes, entry_bytes, word, number, span, bytes};
ghost use Rattle.octets.specs.Part.{OwnFrom};

use paper::Format;

// A byte as a number.
pub fn wide(b: u8) -> usize
    ensures { (result ≡ b) × (result < 256) }
{
    b as usize
}

// A 16-bit number as a wide one.
pub fn wide16(x: u16) -> usize
    ensures { (result ≡ x) × (result < 65536) }
{
    x as usize
}

// The 16-bit number at byte i.
pub fn word(b: &[u8], i: usize) -> usize
    requires { i + 1 < length b.now }
    ensures { (result ≡ word b.now i) × (result < 65536) }
{
    wide16(u16::from_le_bytes([b[i], b[i + 1]]))
}

// The 64-bit number at byte i.
pub fn long(b: &[u8], i: usize) -> usize
    requires { i + 7 < length b.now }
    ensures { result ≡ number (span 8 b.now i) }
{
    let n = u64::from_le_bytes([
        b[i],
        b[i + 1],
        b[i + 2],
        b[i + 3],
        b[i + 4],
        b[i + 5],
        b[i + 6],
        b[i + 7],
    ]);
    n as usize
}

// The bytes of an entry of a shape.
pub fn entry_bytes(f: Format) -> usize
    requires { f.levels ≤ 255 }
    ensures { result ≡ entry_bytes f }
{
    4 + 2 * f.levels
}

// The bytes of a row: its list, as in an entry, and its value.
pub fn row_bytes(f: Format) -> usize
    requires { f.levels ≤ 255 }
    ensures { result ≡ row_bytes f }
{
    entry_bytes(f) + 8
}

// Record i of w bytes: its own bytes of the caller's table.
pub fn record(t: &[u8], w: usize, i: usize) -> &[u8]
    requires { w * i + w ≤ length t.now }
    ensures { (result.now ≡ take w (drop (w * i) t.now)) × (length result.now ≡ w) × OwnFrom t.entry (w * i) result }
{
    let at = w * i;
    &t[at..at + w]
}

// Some bytes, put at a place.
pub fn put(out: &mut [u8], at: usize, text: &[u8])
    requires { at + length text.now ≤ length out.old }
    ensures { out.new ≡ sets out.old at text.now }
{
    for k in 0..text.len() {
        out[at + k] = text[k];
    }
}

// A 16-bit number, least byte first.
pub fn put_word(new: &mut [u8], at: usize, x: u16)
    requires { at + 2 ≤ length new.old }
    ensures { new.new ≡ sets new.old at (bytes 2 x) }
{
    new[at..at + 2].copy_from_slice(&x.to_le_bytes());
}
