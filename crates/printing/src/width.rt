// What a width says of the files: their format, where the entries of a shape stand, and the last label of an entry.
ghost use Rattle.std.specs.Prelude.{◌≡◌, length, IfSome};
ghost use Rattle.paper.specs.Format.{entry_bytes};
ghost use Rattle.octets.specs.Served.{Served};

use paper::{Format, Width};
use tables::row::smaller;

// The format of a width, which every layer below serves.
#[tactic(auto, using(octets::proofs::Laws::format_served))]
pub fn served(width: Width) -> Format
    ensures { Served result }
{
    paper::format_of(width)
}

// An entry's own bytes of a shape; none past the last whole entry.
pub fn entry_at(shape: &[u8], f: Format, e: usize) -> Option<&[u8]>
    requires { Served f }
    ensures { IfSome result (λ entry. length entry.now ≡ entry_bytes f) }
{
    let w = octets::entry_bytes(f);
    if e < shape.len() / w {
        Some(octets::record(shape, w, e))
    } else {
        None
    }
}

// The last label of an entry's type; 0 for a part that is no whole entry.
pub fn last_label(entry: &[u8], f: Format) -> usize
    requires { Served f }
{
    if entry.len() != octets::entry_bytes(f) {
        return 0;
    }
    let size = smaller(octets::wide(entry[1]), f.levels);
    octets::word(entry, 2 + 2 * size)
}
