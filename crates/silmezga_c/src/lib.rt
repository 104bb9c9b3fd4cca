// The calls for programs in C and Rust: the same calls and the same promises as `silmezga`'s, under C's calling convention. What C cannot
// take is told in numbers: the width as its levels, the verdict as its number and two values, the second answer as 1 or 0, and a row's own
// bytes as the place in the caller's table where they stand. An enum of C may hold any number: 8 is eight levels, and every other number
// six. `include/silmezga.h` declares these calls, and `silmezga_c_c`, built over this crate as an archive, exports them: a crate is a library or an archive,
// not both. None asks anything of its caller beyond slices that are there.
#![tactic(auto)]

pub mod answers;

ghost use Rattle.std.specs.Prelude.{◌≡◌, map};
ghost use Rattle.paper.specs.Format.{base, eight};
ghost use Rattle.paper.specs.Widths.{move_table, move_shape};
ghost use Rattle.paper.specs.Calls.{examine, adorn, judge, summarise};
ghost use Rattle.paper.specs.Labels.{convert};
ghost use Rattle.paper.specs.Index.{judge_with, summarise_with};
ghost use Rattle.paper.specs.Refusals.{refusal_number, refusal_place};
ghost use Rattle.grammar.specs.Typed.{print_tree};
ghost use Rattle.adorned.specs.Lent.{told};
ghost use Rattle.indexes.specs.Built.{Builds};
ghost use Rattle.reshaping.specs.Reshaped.{Reshapes, ReshapesWith};
ghost use Rattle.widths.specs.Answers.{Moves};
ghost use Rattle.labels.specs.Answers.{Converts};
ghost use Rattle.typed.specs.Read.{ReadsTree};
ghost use Rattle.spelling.specs.Printed.{Prints};
ghost use Rattle.silmezga_c.specs.Told.{width_of, format_numbered, LooksUp, in_four, four_numbers};
ghost use Rattle.silmezga_c.specs.Numbers.{told_count, told_summary, told_converted};

use adorned::TypeSummary;
pub use answers::JudgedNumbers;
use answers::{ConvertedNumbers, Counted, SummaryNumbers};
use silmezga::{Refusal, Width};

// The width that a number names.
fn width_of(number: u32) -> Width
    ensures { result ≡ width_of number }
{
    if number == 8 {
        return Width::Eight;
    }
    Width::Six
}

// Refusals 1 to 3, or the count of rows.
#[unsafe(no_mangle)]
pub extern "C" fn silmezga_examine(width: u32, table: &[u8]) -> Counted
    ensures { told_count result ≡ examine (format_numbered width) table.now }
{
    silmezga::examine(width_of(width), table).into()
}

// What looking up a row answers: a refusal, or where the row's own bytes start in the table, and how many they are.
#[repr(C)]
#[derive(Clone, Copy, Drop)]
pub struct LookedUp {
    pub number: usize,
    pub place: usize,
    pub start: usize,
    pub length: usize,
}

fn no_row(refusal: Refusal) -> LookedUp
    ensures { (result.number ≡ refusal_number refusal) × (result.place ≡ refusal_place refusal) × (result.start ≡ 0) × (result.length ≡ 0) }
{
    LookedUp {
        number: refusal.number(),
        place: refusal.place(),
        start: 0,
        length: 0,
    }
}

// Refusals 1 to 3, then 11, or where the row stands.
#[unsafe(no_mangle)]
pub extern "C" fn silmezga_look_up(width: u32, table: &[u8], row: usize) -> LookedUp
    ensures { LooksUp (format_numbered width) table.now row result }
{
    let w = width_of(width);
    let rows = match silmezga::examine(w, table) {
        Ok(rows) => rows,
        Err(refusal) => return no_row(refusal),
    };
    if rows <= row {
        return no_row(Refusal::NoSuchRow(row));
    }
    let length = octets::row_bytes(paper::format_of(w));
    LookedUp {
        number: 0,
        place: 0,
        start: length * row,
        length,
    }
}

// Refusals 1 to 4, then 10, or the count of types, with one summary a type at the front of what was lent; what lies past them stays as it
// was.
#[unsafe(no_mangle)]
pub extern "C" fn silmezga_adorn(width: u32, table: &[u8], summaries: &mut [TypeSummary]) -> Counted
    ensures result_value { told_count result ≡ (adorn (format_numbered width) table.now (map told summaries.old)).reply }
    ensures summaries_after { map told summaries.new ≡ (adorn (format_numbered width) table.now (map told summaries.old)).summaries }
{
    silmezga::adorn(width_of(width), table, summaries).into()
}

// Refusals 1 to 7, or the verdict and the second answer in numbers, and the numbers of each edge.
#[unsafe(no_mangle)]
pub extern "C" fn silmezga_judge(width: u32, table: &[u8], shape: &[u8]) -> JudgedNumbers
    ensures { in_four result ≡ four_numbers (judge (format_numbered width) table.now shape.now) }
{
    silmezga::judge(width_of(width), table, shape).into()
}

// Refusals 1 to 8, or the new table and its source list, at the front of what was lent; what lies past them stays as it was. Where the
// verdict on the same table and shape is 0, what the call leaves keeps the links between records, none missing and none made up. Where the
// second answer is yes, none is made up whatever the verdict. The row that verdict 1 names is in no line of the entry that it names. A new
// table of at most 1,024 lines is a sound source: no call refuses it with 1 to 4. Directly beneath each line stand of each child entry as many lines as
// its source row has closest rows of that entry's type, and so between the two numbers of children that judging says of it.
#[unsafe(no_mangle)]
pub extern "C" fn silmezga_reshape(
    width: u32,
    table: &[u8],
    shape: &[u8],
    new: &mut [u8],
    sources: &mut [u32],
) -> Counted
    ensures { Reshapes (format_numbered width) table.now shape.now new.old sources.old (told_count result) new.new sources.new }
{
    silmezga::reshape(width_of(width), table, shape, new, sources).into()
}

// Refusals 1 to 8, with room for 4,096 lines, or for each of 16 entries its lines, source rows, copies and different source rows.
#[unsafe(no_mangle)]
pub extern "C" fn silmezga_summarise(width: u32, table: &[u8], shape: &[u8]) -> SummaryNumbers
    ensures { told_summary result ≡ summarise (format_numbered width) table.now shape.now }
{
    silmezga::summarise(width_of(width), table, shape).into()
}

// Refusals 1 to 3, then 29, or the count of rows, with the table of eight levels at the front of what was lent; what lies past it stays as it was.
#[unsafe(no_mangle)]
pub extern "C" fn silmezga_widen_table(table: &[u8], new: &mut [u8]) -> Counted
    ensures { Moves (move_table base eight table.now new.old) (told_count result) new.new }
{
    silmezga::widen_table(table, new).into()
}

// Refusals 1 to 3, then 24, then 29, or the count of rows, with the table of six levels at the front of what was lent; what lies past it
// stays as it was.
#[unsafe(no_mangle)]
pub extern "C" fn silmezga_narrow_table(table: &[u8], new: &mut [u8]) -> Counted
    ensures { Moves (move_table eight base table.now new.old) (told_count result) new.new }
{
    silmezga::narrow_table(table, new).into()
}

// Refusals 5 and 6, then 29, or the count of entries, with the shape of eight levels at the front of what was lent; what lies past it stays as
// it was.
#[unsafe(no_mangle)]
pub extern "C" fn silmezga_widen_shape(shape: &[u8], new: &mut [u8]) -> Counted
    ensures { Moves (move_shape base eight shape.now new.old) (told_count result) new.new }
{
    silmezga::widen_shape(shape, new).into()
}

// Refusals 5 and 6, then 24, then 29, or the count of entries, with the shape of six levels at the front of what was lent; what lies past it
// stays as it was.
#[unsafe(no_mangle)]
pub extern "C" fn silmezga_narrow_shape(shape: &[u8], new: &mut [u8]) -> Counted
    ensures { Moves (move_shape eight base shape.now new.old) (told_count result) new.new }
{
    silmezga::narrow_shape(shape, new).into()
}

// Refusals 1 to 3, 5 and 6 on the old range of labels, then 25, 26 and 29, or the counts of rows and entries, with the converted table and shape
// at the front of what was lent for each; what lies past them stays as it was.
#[unsafe(no_mangle)]
pub extern "C" fn silmezga_convert_labels(
    width: u32,
    table: &[u8],
    shape: &[u8],
    pairs: &[u16],
    new_table: &mut [u8],
    new_shape: &mut [u8],
) -> ConvertedNumbers
    ensures { let asked = convert (format_numbered width) table.now shape.now pairs.now new_table.old new_shape.old in
        Converts asked (told_converted result) new_table.new new_shape.new }
{
    silmezga::convert_labels(width_of(width), table, shape, pairs, new_table, new_shape).into()
}

// Refusals 1 to 4, 12, 5, 6, 13 and 29, or the count of entries, with the shape of the typed tree at the front of what was lent; what lies past it
// stays as it was.
#[unsafe(no_mangle)]
pub extern "C" fn silmezga_read_tree(
    width: u32,
    table: &[u8],
    text: &[u8],
    shape: &mut [u8],
) -> Counted
    ensures { ReadsTree (format_numbered width) table.now text.now shape.old (told_count result) shape.new }
{
    silmezga::read_tree(width_of(width), table, text, shape).into()
}

// Refusals 5, 6 and 29, or the count of bytes, with the shape's line of text at the front of what was lent; what lies past it stays as it was.
#[unsafe(no_mangle)]
pub extern "C" fn silmezga_print_tree(width: u32, shape: &[u8], text: &mut [u8]) -> Counted
    ensures { Prints (print_tree (format_numbered width) shape.now text.old) (told_count result) text.new }
{
    silmezga::print_tree(width_of(width), shape, text).into()
}

// Refusals 1 to 3, then 14, or the count of rows, with each row's last descendant and the next row of its type at the front of what was lent; places
// past the rows stay as they were.
#[unsafe(no_mangle)]
pub extern "C" fn silmezga_build_index(
    width: u32,
    table: &[u8],
    last: &mut [u16],
    next: &mut [u16],
) -> Counted
    ensures { Builds (format_numbered width) table.now last.old next.old (told_count result) last.new next.new }
{
    silmezga::build_index(width_of(width), table, last, next).into()
}

// Refusals 1 to 4, then 14 and 15 of the lists, then 5 to 7, or the verdict and the second answer in numbers, and the numbers of each edge. Where the
// lists are this table's, everything is as without an index.
#[unsafe(no_mangle)]
pub extern "C" fn silmezga_judge_with_index(
    width: u32,
    table: &[u8],
    shape: &[u8],
    last: &[u16],
    next: &[u16],
) -> JudgedNumbers
    ensures { let asked = judge_with (format_numbered width) table.now shape.now last.now next.now in
        in_four result ≡ four_numbers asked }
{
    silmezga::judge_with_index(width_of(width), table, shape, last, next).into()
}

// Refusals 1 to 4, then 14 and 15 of the lists, then 5 to 8, or the new table and its source list, at the front of what was lent; what lies past them
// stays as it was. Where the lists are this table's, everything is as without an index, with all that is promised of that call.
#[unsafe(no_mangle)]
pub extern "C" fn silmezga_reshape_with_index(
    width: u32,
    table: &[u8],
    shape: &[u8],
    last: &[u16],
    next: &[u16],
    new: &mut [u8],
    sources: &mut [u32],
) -> Counted
    ensures { let promised = ReshapesWith (format_numbered width) table.now shape.now last.now next.now in
        promised new.old sources.old (told_count result) new.new sources.new }
{
    silmezga::reshape_with_index(width_of(width), table, shape, last, next, new, sources).into()
}

// Refusals 1 to 4, then 14 and 15 of the lists, then 5 to 8, with room for 4,096 lines, or the figures of each of 16 entries. Where the lists are this
// table's, everything is as without an index.
#[unsafe(no_mangle)]
pub extern "C" fn silmezga_summarise_with_index(
    width: u32,
    table: &[u8],
    shape: &[u8],
    last: &[u16],
    next: &[u16],
) -> SummaryNumbers
    ensures { told_summary result ≡ summarise_with (format_numbered width) table.now shape.now last.now next.now }
{
    silmezga::summarise_with_index(width_of(width), table, shape, last, next).into()
}
