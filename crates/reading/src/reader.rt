// A small reader over a table: it holds the table, its width and a row position and hands out rows in order. Past the last whole row it
// hands out an empty part and stays there. The work is in `row_at` and `place_after`, which take a plain table; the rest is thin.
ghost use Rattle.std.specs.Prelude.{◌≡◌};
ghost use Rattle.paper.specs.Widths.{format_of};
ghost use Rattle.paper.specs.Calls.{reader_next};
ghost use Rattle.reading.specs.Handed.{Handed};

use paper::Width;

// The row at a place: its own bytes of the caller's table, 24 or 28; past the last whole row, an empty part.
pub fn row_at(width: Width, table: &[u8], at: usize) -> &[u8]
    ensures { Handed (format_of width) table.entry at result }
{
    let none = 0;
    let w = octets::row_bytes(paper::format_of(width));
    let rows = table.len() / w;
    if at < rows {
        return octets::record(table, w, at);
    }
    &table[none..none]
}

// The place after a row; past the last whole row, the same place.
pub fn place_after(width: Width, table: &[u8], at: usize) -> usize
    ensures { result ≡ reader_next (format_of width) table.now at }
{
    let w = octets::row_bytes(paper::format_of(width));
    if at < table.len() / w {
        return at + 1;
    }
    at
}

// The table, the place of the row that is handed out, and the table's width.
#[derive(Clone, Copy, Drop)]
pub struct Reader<'a> {
    pub table: &'a [u8],
    pub at: usize,
    pub width: Width,
}

// A reader at a place of a table.
pub fn make<'a>(width: Width, table: &'a [u8], at: usize) -> Reader<'a>
    ensures { (result.table ≡ table.entry) × (result.at ≡ at) × (result.width ≡ width) }
{
    Reader { table, at, width }
}

// The row that a reader stands at.
pub fn row<'a>(r: Reader<'a>) -> &'a [u8]
    ensures { Handed (format_of r.entry.width) r.entry.table r.entry.at result }
{
    row_at(r.width, r.table, r.at)
}

// The reader one row on, over the same table.
pub fn next<'a>(r: Reader<'a>) -> Reader<'a>
    ensures { (result.table ≡ r.entry.table) × (result.at ≡ reader_next (format_of r.entry.width) r.entry.table.now r.entry.at) × (result.width ≡ r.entry.width) }
{
    let at = place_after(r.width, r.table, r.at);
    Reader {
        table: r.table,
        at,
        width: r.width,
    }
}

// The row that a reader made at a place hands out: for callers that hold no reader.
pub fn handed<'a>(width: Width, table: &'a [u8], at: usize) -> &'a [u8]
    ensures { Handed (format_of width) table.entry at result }
{
    row(make(width, table, at))
}

// The row that it hands out next.
pub fn handed_next<'a>(width: Width, table: &'a [u8], at: usize) -> &'a [u8]
    ensures { Handed (format_of width) table.entry (reader_next (format_of width) table.now at) result }
{
    row(next(make(width, table, at)))
}
