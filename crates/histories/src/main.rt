// The gate's run of what the program does with histories: behind each word `--` stand an entry and the folders that are taken in one after the
// other, and for each a heading, a line for each folder and the total are printed. Where a folder ends a history before all was read, a line says so.
#![tactic(auto)]

mod months;

use crate::months::print_months;
use printing::words;

fn main(rt: HostRuntime) {
    let _ = print_months(&rt, words::count(&rt));
}
