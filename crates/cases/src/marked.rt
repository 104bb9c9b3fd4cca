// Adorning into 65 places of its own, each marked, so that a program without a slice of summaries can run the call and show every place
// after it.
ghost use Rattle.std.specs.Prelude.{◌≡◌, ◌≤◌, min, replicate};
ghost use Rattle.silmezga_c.specs.Told.{format_numbered};
ghost use Rattle.cases.specs.Marked.{mark, LeftOf};

use silmezga::TypeSummary;
use silmezga_c::answers::Counted;

// What adorning answered, and the places after it.
#[derive(Drop)]
pub struct Left {
    pub answer: Counted,
    pub summaries: [TypeSummary; 65],
}

fn marks() -> [TypeSummary; 65]
    ensures { result ≡ replicate 65 mark }
{
    let mark = TypeSummary {
        parent: 7777,
        label: 7777,
        level: 7777,
        rows: 7777,
        least: 7777,
        greatest: 7777,
    };
    [mark; 65]
}

// Lends the first n places.
fn lend(said: u32, table: &[u8], n: usize) -> Left
    requires { n ≤ 65 }
    ensures { LeftOf (format_numbered said) table.now n result }
{
    let mut places = marks();
    let answer = silmezga_c::silmezga_adorn(said, table, &mut places[..n]);
    Left {
        answer,
        summaries: places,
    }
}

// Lends as many places as asked for, at most 65.
pub fn adorn_marked(said: u32, table: &[u8], lent: usize) -> Left
    ensures { LeftOf (format_numbered said) table.now (min lent 65) result }
{
    lend(said, table, tables::row::smaller(lent, 65))
}
