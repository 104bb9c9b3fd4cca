// The figures of a summary, a line for each entry.
ghost use Rattle.std.specs.Prelude.{◌≡◌, length};
ghost use Rattle.paper.specs.Format.{entry_bytes};
ghost use Rattle.octets.specs.Served.{Served};

use crate::new_table::print_refused;
use crate::out::{Written, print};
use crate::width::{entry_at, last_label, served};
use paper::{Format, Width};
use screens::figures::{Figures, put_figures};
use silmezga::Summary;
use tables::row::smaller;

fn print_entry(rt: &impl Print, entry: &[u8], f: Format, e: usize, figures: Figures) -> Written
    requires served { Served f }
    requires len { length entry.now ≡ entry_bytes f }
{
    let level = smaller(octets::wide(entry[0]), f.levels);
    let mut text = [0u8; 256];
    let n = put_figures(&mut text, level, e, last_label(entry, f), figures);
    print(rt, &text[..n])
}

fn print_entries(rt: &impl Print, shape: &[u8], f: Format, s: &Summary) -> Written
    requires { Served f }
{
    for e in 0..16 {
        let Some(entry) = entry_at(shape, f, e) else {
            break;
        };
        let figures = Figures {
            lines: s.lines[e],
            rows: s.rows[e],
            copies: s.copies[e],
            different: s.different[e],
        };
        print_entry(rt, entry, f, e, figures)?;
    }
    Ok(())
}

// Prints the refusal of a summary, or its figures.
pub fn print_summary(rt: &impl Print, width: Width, table: &[u8], shape: &[u8]) -> Written {
    match silmezga::summarise(width, table, shape) {
        Ok(s) => print_entries(rt, shape, served(width), &s),
        Err(refusal) => print_refused(rt, refusal.number(), refusal.place()),
    }
}
