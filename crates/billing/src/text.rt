// The lines of a history as text: a folder's sums, a folder that is not counted, and the total.
ghost use Rattle.std.specs.Prelude.{◌+◌, ◌≤◌, length};
ghost use Rattle.io.specs.Counts.{IsPrefixLen};
ghost use Rattle.grammar.specs.Text.{signed_text};
ghost use Rattle.names.specs.Put.{Put};
ghost use Rattle.billing.specs.Billing.{most_name, sums_text, counted_text, not_counted_text, total_text, left_out_text};

use names::put::{put_after, put_byte, put_bytes, put_number};
use totals::Total;

// A signed number. Below 0 its size is one more than that of the next number, which 64 bits hold of the least one too.
fn put_signed(out: &mut [u8], at: usize, v: i64) -> usize
    requires { at + 21 ≤ length out.old }
    ensures { Put out.old at (signed_text v) out.new result × (result ≤ at + 21) }
{
    if v < 0 {
        put_after(out, at, b'-', (-1 - v) as usize + 1)
    } else {
        put_number(out, at, v as usize)
    }
}

// Both sums with their words.
fn put_sums(out: &mut [u8], at: usize, shown: i64, unshown: i64) -> usize
    requires { at + 62 ≤ length out.old }
    ensures { Put out.old at (sums_text shown unshown) out.new result × (result ≤ at + 62) }
{
    let word = put_bytes(out, at, b": shown ");
    let sum = put_signed(out, word, shown);
    let word2 = put_bytes(out, sum, b", not shown ");
    put_signed(out, word2, unshown)
}

// The line of a folder that is taken in, at the front of the buffer.
pub fn put_counted(out: &mut [u8; 4096], name: &[u8], shown: i64, unshown: i64) -> usize
    requires { length name.now ≤ most_name }
    ensures put { Put out.old 0 (counted_text name.now shown unshown) out.new result }
    ensures prefix_len { IsPrefixLen result out.new }
{
    let folder = put_bytes(out, 0, name);
    let sums = put_sums(out, folder, shown, unshown);
    put_byte(out, sums, b'\n')
}

// The line of a folder that is refused, at the front of the buffer.
pub fn put_not_counted(out: &mut [u8; 4096], name: &[u8], number: usize, place: usize) -> usize
    requires { length name.now ≤ most_name }
    ensures put { Put out.old 0 (not_counted_text name.now number place) out.new result }
    ensures prefix_len { IsPrefixLen result out.new }
{
    let folder = put_bytes(out, 0, name);
    let word = put_bytes(out, folder, b": refused ");
    let first = put_number(out, word, number);
    let second = put_after(out, first, b' ', place);
    let words = put_bytes(out, second, b", not counted");
    put_byte(out, words, b'\n')
}

// The line of the total, at the front of the buffer.
pub fn put_total(out: &mut [u8; 4096], total: Total) -> usize
    ensures put { Put out.old 0 (total_text total) out.new result }
    ensures prefix_len { IsPrefixLen result out.new }
{
    let word = put_bytes(out, 0, b"total");
    let sums = put_sums(out, word, total.shown, total.unshown);
    let word2 = put_bytes(out, sums, b", tapes ");
    let tapes = put_number(out, word2, total.tapes);
    put_byte(out, tapes, b'\n')
}

// The line that reports how many folders are left out of the total, at the front of the buffer.
pub fn put_left_out(out: &mut [u8; 256], folders: usize) -> usize
    ensures put { Put out.old 0 (left_out_text folders) out.new result }
    ensures prefix_len { IsPrefixLen result out.new }
{
    let word = put_bytes(out, 0, b"refused ");
    let number = put_number(out, word, folders);
    put_byte(out, number, b'\n')
}
