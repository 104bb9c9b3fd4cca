// The names of labels 1 to 20: the one table of them, by which they are written and read.
ghost use Rattle.std.specs.Prelude.{◌≡◌, ◌+◌, ◌≤◌, ◌<◌, length};
ghost use Rattle.grammar.specs.Names.{name_of, name_text};
ghost use Rattle.names.specs.Put.{Put};

use crate::put::{put_bytes, put_number};

const NAMES: [&[u8]; 20] = [
    b"portfolio",
    b"lessee",
    b"lease",
    b"asset",
    b"payment",
    b"meter",
    b"guarantor",
    b"invoice",
    b"site",
    b"insurance",
    b"deposit",
    b"vendor",
    b"schedule",
    b"residual",
    b"tax",
    b"service",
    b"reading",
    b"contact",
    b"currency",
    b"document",
];

// The name of label k + 1.
pub fn name_bytes(k: usize) -> &'static [u8]
    requires { k < 20 }
    ensures name { result.now ≡ name_of k }
    ensures lower_bound { 0 < length result.now }
    ensures upper_bound { length result.now ≤ 9 }
{
    NAMES[k]
}

// A label's name: labels 1 to 20 by name, others as numbers.
pub fn put_name(out: &mut [u8], at: usize, label: usize) -> usize
    requires { at + 20 ≤ length out.old }
    ensures { Put out.old at (name_text label) out.new result × (result ≤ at + 20) }
{
    if label < 1 || 20 < label {
        return put_number(out, at, label);
    }
    let k = label - 1;
    put_bytes(out, at, name_bytes(k))
}
