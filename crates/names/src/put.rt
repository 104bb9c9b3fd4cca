// Text put into a lent buffer at a place. Each function answers the place after what it put, and asks for room.
ghost use Rattle.std.specs.Prelude.{◌∷◌, [], ◌+◌, ◌≤◌, ◌<◌, length};
ghost use Rattle.grammar.specs.Text.{decimal};
ghost use Rattle.names.specs.Put.{Put};

// One byte.
pub fn put_byte(out: &mut [u8], at: usize, b: u8) -> usize
    requires { at < length out.old }
    ensures { Put out.old at (b ∷ []) out.new result }
{
    out[at] = b;
    at + 1
}

// Some bytes.
pub fn put_bytes(out: &mut [u8], at: usize, text: &[u8]) -> usize
    requires { at + length text.now ≤ length out.old }
    ensures { Put out.old at text.now out.new result }
{
    octets::put(out, at, text);
    at + text.len()
}

// A number's decimal digits, of which there are at most 20.
pub fn put_number(out: &mut [u8], at: usize, n: usize) -> usize
    requires { at + 20 ≤ length out.old }
    ensures { Put out.old at (decimal n) out.new result × (result ≤ at + 20) }
{
    let mut text = [0u8; 20];
    let k = io::decimal(n as u64, &mut text);
    put_bytes(out, at, &text[..k])
}

// A byte, and a number after it.
pub fn put_after(out: &mut [u8], at: usize, c: u8, n: usize) -> usize
    requires { at + 21 ≤ length out.old }
    ensures { Put out.old at (c ∷ decimal n) out.new result × (result ≤ at + 21) }
{
    let p = put_byte(out, at, c);
    put_number(out, p, n)
}
