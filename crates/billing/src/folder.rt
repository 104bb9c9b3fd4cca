// A folder of a history: its files are read, its tape is taken in, and its line is printed.
ghost use Rattle.std.specs.Prelude.{◌≡◌, true, not, ◌≤◌, eqb, length, IfOk};
ghost use Rattle.io.specs.Counts.{IsPrefixLen};
ghost use Rattle.paper.specs.Widths.{format_of};
ghost use Rattle.totals.specs.Total.{take_in};
ghost use Rattle.totals.specs.Told.{tape};
ghost use Rattle.billing.specs.Billing.{most_name};

use crate::tape::put_taken;
use crate::text::put_not_counted;
use paper::Width;
use paper::refusal::Refusal;
use printing::out::{Stopped, print};
use printing::tape::{Wanted, read_source, read_wanted};
use printing::typed_tree::read_typed;
use std::rt::Files;
use totals::Total;

// What became of a folder whose line was written: whether it is refused, and the total afterwards.
#[derive(Clone, Copy, Drop)]
pub struct Step {
    pub refused: bool,
    pub total: Total,
}

// A folder that is refused for its typed tree adds nothing.
fn leave_out(rt: &impl Print, name: &[u8], total: Total, refusal: Refusal) -> Result<Step, Stopped>
    requires { length name.now ≤ most_name }
    ensures { IfOk result (λ s. (s.refused ≡ true) × (s.total ≡ total)) }
{
    let mut text = [0u8; 4096];
    let n = put_not_counted(&mut text, name, refusal.number(), refusal.place());
    print(rt, &text[..n])?;
    Ok(Step {
        refused: true,
        total,
    })
}

// Takes in the tape of a table and a shape, and puts the folder's line at the front of the buffer.
#[tactic(auto, using(crate::proofs::Taken::after_told, crate::proofs::Taken::refused_told))]
fn take_tape(
    text: &mut [u8; 4096],
    name: &[u8],
    total: Total,
    width: Width,
    table: &[u8],
    shape: &[u8],
    entry: usize,
) -> (Step, usize)
    requires { length name.now ≤ most_name }
    ensures step { let t = tape (format_of width) table.now shape.now entry in
        (result.0.refused ≡ not (eqb (take_in total t).number 0)) × (result.0.total ≡ (take_in total t).rest) }
    ensures prefix_len { IsPrefixLen result.1 text.new }
{
    let b = put_taken(text, name, total, width, table, shape, entry);
    let step = match b.taken {
        Ok(after) => Step {
            refused: false,
            total: after,
        },
        Err(left) => Step {
            refused: true,
            total: left.total,
        },
    };
    (step, b.bytes)
}

// Takes in the tape of a table and a shape, and prints the folder's line.
fn print_tape(
    rt: &impl Print,
    name: &[u8],
    total: Total,
    width: Width,
    table: &[u8],
    shape: &[u8],
    entry: usize,
) -> Result<Step, Stopped>
    requires { length name.now ≤ most_name }
    ensures { let t = tape (format_of width) table.now shape.now entry in
        IfOk result (λ s. (s.refused ≡ not (eqb (take_in total t).number 0)) × (s.total ≡ (take_in total t).rest)) }
{
    let mut text = [0u8; 4096];
    let (step, n) = take_tape(&mut text, name, total, width, table, shape, entry);
    print(rt, &text[..n])?;
    Ok(step)
}

// Takes in the tape of a table and a typed tree.
fn take_typed(
    rt: &impl Print,
    name: &[u8],
    total: Total,
    width: Width,
    table: &[u8],
    text: &[u8],
    entry: usize,
) -> Result<Step, Stopped>
    requires { length name.now ≤ most_name }
{
    let mut shape = [0u8; 320];
    match read_typed(width, table, text, &mut shape) {
        Ok(n) => print_tape(rt, name, total, width, table, &shape[..n], entry),
        Err(refusal) => leave_out(rt, name, total, refusal),
    }
}

// Takes in the tape of a table and the wanted tree of the folder.
fn take_wanted(
    rt: &(impl Files + Print),
    name: &[u8],
    total: Total,
    width: Width,
    table: &[u8],
    entry: usize,
) -> Result<Step, Stopped>
    requires { length name.now ≤ most_name }
{
    let mut wanted = [0u8; 1539];
    match read_wanted(rt, name, width, true, &mut wanted)? {
        Wanted::Text(n) => take_typed(rt, name, total, width, table, &wanted[..n], entry),
        Wanted::Shape(n) => print_tape(rt, name, total, width, table, &wanted[..n], entry),
    }
}

// Takes in the tape of a folder, and prints the folder's line, where the folder can be read. The folder's name is printed as it is given.
pub fn take_folder(
    rt: &(impl Files + Print),
    name: &[u8],
    total: Total,
    entry: usize,
) -> Result<Step, Stopped>
    requires { length name.now ≤ most_name }
{
    let mut table = [0u8; 28673];
    let t = read_source(rt, name, &mut table)?;
    take_wanted(rt, name, total, t.width, &table[..t.bytes], entry)
}
