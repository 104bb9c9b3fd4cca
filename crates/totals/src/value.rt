// A row's value, as the signed number that its eight bytes spell, and its range.
ghost use Rattle.std.specs.Prelude.{◌≡◌, ◌+◌, ◌<◌, length};
ghost use Rattle.paper.specs.Format.{word, number, span, signed};
ghost use Rattle.totals.specs.Sums.{within};
ghost use Rattle.totals.specs.Rows.{signed_bits};

// A byte as a number.
fn wide(b: u8) -> usize
    ensures { (result ≡ b) × (result < 256) }
{
    b as usize
}

// A place of a source list as a number.
pub fn wide32(x: u32) -> usize
    ensures { (result ≡ x) × (result < 4294967296) }
{
    x as usize
}

// The 16-bit number at byte i.
fn word(b: &[u8], i: usize) -> usize
    requires { i + 1 < length b.now }
    ensures { (result ≡ word b.now i) × (result < 65536) }
{
    wide(b[i]) + 256 * wide(b[i + 1])
}

// The 64-bit number at byte i.
fn long(b: &[u8], i: usize) -> usize
    requires { i + 7 < length b.now }
    ensures { result ≡ number (span 8 b.now i) }
{
    let low = word(b, i) + 65536 * word(b, i + 2);
    let high = word(b, i + 4) + 65536 * word(b, i + 6);
    low + 4294967296 * high
}

// The signed number of 64 bits.
fn with_sign(bits: usize) -> i64
    ensures { result ≡ signed_bits bits }
{
    if bits < 9223372036854775808 {
        bits as i64
    } else {
        -1 - (18446744073709551615 - bits) as i64
    }
}

// The value at byte i.
pub fn value_at(b: &[u8], i: usize) -> i64
    requires { i + 7 < length b.now }
    ensures { result ≡ signed (span 8 b.now i) }
{
    with_sign(long(b, i))
}

// Does the number lie from −n to n, both allowed?
pub fn lies_within(n: usize, v: i64) -> bool
    requires { n < 9223372036854775808 }
    ensures { result ≡ within n v }
{
    let most = n as i64;
    -most <= v && v <= most
}
