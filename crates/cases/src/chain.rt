// A reshape of what a reshape leaves, with no test of the new table in between: a new table of at most 1,024 lines is a sound source.
ghost use Rattle.std.specs.Prelude.{◌≡◌, ◌⊎◌, ◌<◌};
ghost use Rattle.paper.specs.Refusals.{number_in};
ghost use Rattle.paper.specs.Widths.{format_of};
ghost use Rattle.cases.specs.Chain.{Source};

use crate::lent::{fill_bytes, fill_places, places_room, print_told, record_bytes, records_room};
use crate::print::OUTPUT;
use silmezga::{Refusal, Width, reshape};
use silmezga_c::answers::Counted;
use tables::row::smaller;

// Reshapes the first lines of a new table: it is accepted, or refused for the shape or the room.
fn reshape_again(
    width: Width,
    new: &[u8],
    lines: usize,
    again: &[u8],
    table: &mut [u8],
    sources: &mut [u32],
) -> Result<usize, Refusal>
    requires { Source (format_of width) new.now lines }
    ensures { (number_in result ≡ 0) ⊎ (4 < number_in result) }
{
    let end = record_bytes(width) * lines;
    reshape(width, &new[..end], again, table, sources)
}

fn print_second(
    width: Width,
    new: &[u8],
    lines: usize,
    again: &[u8],
    table: &mut [u8],
    sources: &mut [u32],
)
    requires { Source (format_of width) new.now lines }
{
    fill_bytes(table);
    fill_places(sources);
    let r = reshape_again(width, new, lines, again, table, sources);
    print_told(Counted::from(r), table, sources);
}

// The second reshape is lent 4,100 records and places.
fn print_again(width: Width, new: &[u8], lines: usize, again: &[u8])
    requires { Source (format_of width) new.now lines }
{
    let mut table = records_room();
    let mut sources = places_room();
    let lent = 4100 * record_bytes(width);
    print_second(width, new, lines, again, &mut table[..lent], &mut sources);
}

// A refused reshape leaves no table, and one of more than 1,024 lines is no source.
#[tactic(auto, using(crate::proofs::Chained::leaves_source))]
fn print_both(width: Width, t: &[u8], s: &[u8], again: &[u8], new: &mut [u8], sources: &mut [u32]) {
    match reshape(width, t, s, new, sources) {
        Ok(lines) if lines <= 1024 => print_again(width, new, lines, again),
        _ => {
            io::write_all(OUTPUT, b": none");
        }
    }
}

// Lends the first reshape so many bytes and places, as far as there are any. Without a second shape there is no chain.
pub fn print_chain(width: Width, t: &[u8], s: &[u8], again: &[u8], lent: usize, places: usize) {
    if again.len() == 0 {
        return;
    }
    let mut new = records_room();
    let mut sources = places_room();
    let lent = smaller(lent, 114800);
    let places = smaller(places, 4100);
    print_both(width, t, s, again, &mut new[..lent], &mut sources[..places]);
}
