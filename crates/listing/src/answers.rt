// The first line of the listing: a refusal, or the verdict.
ghost use Rattle.std.specs.Prelude.{◌∷◌, []};
ghost use Rattle.io.specs.Counts.{IsPrefixLen};
ghost use Rattle.judging.specs.Judged.{numbers_of};
ghost use Rattle.listing.specs.Listing.{refused_text, verdict_text};
ghost use Rattle.names.specs.Put.{Put};

use judging::verdict::Verdict;
use names::put::{put_after, put_byte, put_bytes};

// A refusal's number and place, at the front of the buffer.
pub fn put_refused(out: &mut [u8; 256], number: usize, place: usize) -> usize
    ensures put { Put out.old 0 (refused_text number place) out.new result }
    ensures prefix_len { IsPrefixLen result out.new }
{
    let word = put_bytes(out, 0, b"refused");
    let first = put_after(out, word, b' ', number);
    let second = put_after(out, first, b' ', place);
    put_byte(out, second, b'\n')
}

// A verdict with a pair of values.
fn put_found(out: &mut [u8; 256], kind: usize, first: usize, second: usize) -> usize
    ensures put { Put out.old 0 (verdict_text (kind ∷ first ∷ second ∷ [])) out.new result }
    ensures prefix_len { IsPrefixLen result out.new }
{
    let word = put_bytes(out, 0, b"verdict");
    let told = put_after(out, word, b' ', kind);
    let left = put_after(out, told, b' ', first);
    let right = put_after(out, left, b' ', second);
    put_byte(out, right, b'\n')
}

// Verdict 0, which has no values.
fn put_kept(out: &mut [u8; 256]) -> usize
    ensures put { Put out.old 0 (verdict_text (0 ∷ [])) out.new result }
    ensures prefix_len { IsPrefixLen result out.new }
{
    let word = put_bytes(out, 0, b"verdict");
    let told = put_after(out, word, b' ', 0);
    put_byte(out, told, b'\n')
}

// The verdict with its numbers, at the front of the buffer.
pub fn put_verdict(out: &mut [u8; 256], v: Verdict) -> usize
    ensures put { Put out.old 0 (verdict_text (numbers_of v)) out.new result }
    ensures prefix_len { IsPrefixLen result out.new }
{
    match v {
        Verdict::Kept => put_kept(out),
        Verdict::Missing { entry, row } => put_found(out, 1, entry, row),
        Verdict::Apart { first, second } => put_found(out, 2, first, second),
        Verdict::Unsure { first, second } => put_found(out, 3, first, second),
    }
}
