// The seventeen calls: six for tables and shapes, widening and narrowing, converting labels, typed trees, and four for a table with its index. Each has
// its whole promise: its refusals in their order, and what every lent byte, place and summary holds afterwards. None asks anything of its caller: a call
// takes bytes and lists of every kind and gives its answer, or a refusal with a number and a place, and a refused call changes nothing that it was lent.
// The definitions that the promises name are those of `paper` (specs/Calls, specs/Widths, specs/Labels, specs/Index) and of `grammar` (specs/Grammar,
// specs/Typed). The caller says which width its files have, and each promise is over the format that the width names. `reader` is the small reader over
// a table, under the same rule; its file, with its promises, stands in crate `reading`.
#![tactic(auto, using(octets::proofs::Laws::format_served))]

ghost use Rattle.std.specs.Prelude.{◌≡◌, map};
ghost use Rattle.paper.specs.Format.{base, eight};
ghost use Rattle.paper.specs.Widths.{format_of, move_table, move_shape};
ghost use Rattle.paper.specs.Calls.{examine, look_up, adorn, judge, summarise};
ghost use Rattle.paper.specs.Labels.{convert};
ghost use Rattle.paper.specs.Index.{judge_with, summarise_with};
ghost use Rattle.grammar.specs.Typed.{print_tree};
ghost use Rattle.paper.specs.Refusals.{number_in, place_in, counted};
ghost use Rattle.tables.specs.Reply.{examined, HandsBack};
ghost use Rattle.adorned.specs.Lent.{told, adorned_types};
ghost use Rattle.widths.specs.Answers.{Moves};
ghost use Rattle.labels.specs.Answers.{converted, Converts};
ghost use Rattle.typed.specs.Read.{ReadsTree};
ghost use Rattle.spelling.specs.Printed.{Prints};
ghost use Rattle.indexes.specs.Built.{built, Builds};
ghost use Rattle.judging.specs.Judged.{judged, in_numbers};
ghost use Rattle.reshaping.specs.Reshaped.{reshaped, Reshapes, ReshapesWith, summarised};

pub use adorned::TypeSummary;
pub use judging::judge::Judged;
pub use judging::verdict::Verdict;
pub use labels::convert::Converted;
pub use paper::Width;
pub use paper::refusal::Refusal;
pub use reading::reader;
pub use reshaping::summarise::Summary;

// Examines a table: refusals 1 to 3, or the count of rows.
pub fn examine(width: Width, table: &[u8]) -> Result<usize, Refusal>
    ensures { examined result ≡ examine (format_of width) table.now }
{
    tables::table::examine(table, paper::format_of(width))
}

// Looks up a row: its own bytes of the caller's table, 24 or 28; refused, an empty part.
pub fn look_up(width: Width, table: &[u8], row: usize) -> &[u8]
    ensures { HandsBack (format_of width) table.entry row result }
{
    tables::table::look_up(table, paper::format_of(width), row)
}

// Why a look-up is refused, if it is: refusals 1 to 3, then 11.
pub fn look_up_refusal(width: Width, table: &[u8], row: usize) -> Result<(), Refusal>
    ensures number_value { number_in result ≡ (look_up (format_of width) table.now row).number }
    ensures place_value { place_in result ≡ (look_up (format_of width) table.now row).place }
{
    tables::table::look_up_refusal(table, paper::format_of(width), row)
}

// Adorns a table: refusals 1 to 4, then 10, or the count of types, with one summary a type at the front of what was lent; what lies past
// them stays as it was.
pub fn adorn(width: Width, table: &[u8], summaries: &mut [TypeSummary]) -> Result<usize, Refusal>
    ensures result_value { adorned_types result ≡ (adorn (format_of width) table.now (map told summaries.old)).reply }
    ensures summaries_after { map told summaries.new ≡ (adorn (format_of width) table.now (map told summaries.old)).summaries }
{
    adorned::lent::adorn(table, paper::format_of(width), summaries)
}

// Judges a table and a shape: refusals 1 to 7, or the verdict, the second answer, which is yes where no pair of entries would earn a 2, and for
// each entry but the first how many closest rows there are along its edge: the least and the greatest number of children under a row of its parent
// entry's type, and of parents of a row of its own. All edges, whatever the verdict; entry 0 and unused entries hold zeros.
pub fn judge(width: Width, table: &[u8], shape: &[u8]) -> Result<Judged, Refusal>
    ensures { judged result ≡ in_numbers (judge (format_of width) table.now shape.now) }
{
    judging::judge::judge(table, shape, paper::format_of(width))
}

// Reshapes a table: refusals 1 to 8, or the new table and its source list, at the front of what was lent; what lies past them stays as it
// was. `Reshapes` says so of the answer and of every lent byte and place, and has the buyer's demand: where the verdict on the same table
// and shape is 0, what the call leaves keeps the links between records, none missing and none made up. Where the second answer is yes, none
// is made up whatever the verdict. The row that verdict 1 names is in no line of the entry that it names. A new table of at most 1,024 lines
// is a sound source: no call refuses it with 1 to 4. Directly beneath each line stand of each child entry as many lines as its source row has
// closest rows of that entry's type, and so between the two numbers of children that judging says of it.
pub fn reshape(
    width: Width,
    table: &[u8],
    shape: &[u8],
    new: &mut [u8],
    sources: &mut [u32],
) -> Result<usize, Refusal>
    ensures { Reshapes (format_of width) table.now shape.now new.old sources.old (reshaped result) new.new sources.new }
{
    reshaping::reshape::reshape(table, shape, paper::format_of(width), new, sources)
}

// Summarises a reshape: refusals 1 to 8, with room for 4,096 lines, or for each of 16 entries its lines, source rows, copies and different
// source rows.
pub fn summarise(width: Width, table: &[u8], shape: &[u8]) -> Result<Summary, Refusal>
    ensures { summarised result ≡ summarise (format_of width) table.now shape.now }
{
    reshaping::summarise::summarise(table, shape, paper::format_of(width))
}

// Widens a table of six levels: refusals 1 to 3, then 29, or the count of rows, with the table of eight levels at the front of what was
// lent: each row has two zero components more. What lies past it stays as it was.
pub fn widen_table(table: &[u8], new: &mut [u8]) -> Result<usize, Refusal>
    ensures { Moves (move_table base eight table.now new.old) (counted result) new.new }
{
    widths::moves::table_between(table, Width::Six, Width::Eight, new)
}

// Narrows a table of eight levels: refusals 1 to 3, then 24 with the first row deeper than six levels, then 29, or the count of rows, with
// the table of six levels at the front of what was lent. What lies past it stays as it was.
pub fn narrow_table(table: &[u8], new: &mut [u8]) -> Result<usize, Refusal>
    ensures { Moves (move_table eight base table.now new.old) (counted result) new.new }
{
    widths::moves::table_between(table, Width::Eight, Width::Six, new)
}

// Widens a shape of six levels: refusals 5 and 6, then 29, or the count of entries, with the shape of eight levels at the front of what was
// lent: each entry has two zero labels more. What lies past it stays as it was.
pub fn widen_shape(shape: &[u8], new: &mut [u8]) -> Result<usize, Refusal>
    ensures { Moves (move_shape base eight shape.now new.old) (counted result) new.new }
{
    widths::moves::shape_between(shape, Width::Six, Width::Eight, new)
}

// Narrows a shape of eight levels: refusals 5 and 6, then 24 with the first entry whose level or type length is over six, then 29, or the
// count of entries, with the shape of six levels at the front of what was lent. What lies past it stays as it was.
pub fn narrow_shape(shape: &[u8], new: &mut [u8]) -> Result<usize, Refusal>
    ensures { Moves (move_shape eight base shape.now new.old) (counted result) new.new }
{
    widths::moves::shape_between(shape, Width::Eight, Width::Six, new)
}

// Converts the labels of a stored table and its shape by a list of pairs, old label (100 to 999) then new (1 to 99): refusals 1 to 3, 5 and 6 on
// the old range, labels 1 to 999; then 25 with the first pair to break a rule, half pairs too; 26 with the first row, else the first entry, that
// has a label above 99 not in the list; then 29, or the counts of rows and entries, with the table and the shape at the front of what was lent
// for each. What lies past them stays as it was.
pub fn convert_labels(
    width: Width,
    table: &[u8],
    shape: &[u8],
    pairs: &[u16],
    new_table: &mut [u8],
    new_shape: &mut [u8],
) -> Result<Converted, Refusal>
    ensures { let asked = convert (format_of width) table.now shape.now pairs.now new_table.old new_shape.old in
        Converts asked (converted result) new_table.new new_shape.new }
{
    labels::convert::convert(
        table,
        shape,
        pairs,
        paper::format_of(width),
        new_table,
        new_shape,
    )
}

// Reads a wanted tree that is typed as a line of text, as `asset [ lease [ lessee ] ]`, over a table: refusals 1 to 4; 12 with the first byte of the
// first token that no wanted tree has there, or the text's length where it ends early, or 1,536 where it has more bytes; 5 for more than 16 entries;
// 6 with the first entry whose level is too deep; 13 with the first entry whose name matches no type of the table, or several; then 29, or the count of
// entries, with the records of the shape at the front of what was lent. What lies past them stays as it was. No call refuses that shape with 5, 6 or
// 7 over the same table.
pub fn read_tree(
    width: Width,
    table: &[u8],
    text: &[u8],
    shape: &mut [u8],
) -> Result<usize, Refusal>
    ensures { ReadsTree (format_of width) table.now text.now shape.old (counted result) shape.new }
{
    typed::read::read_tree(table, text, paper::format_of(width), shape)
}

// Prints a shape as a line of text, with whole dotted paths, each with a leading dot, and single spaces: refusals 5 and 6, then 29, or the count of bytes,
// with the line at the front of what was lent. It has no more than 1,360 bytes, and is read back as the same shape over every table past 1 to 4
// that holds its types.
pub fn print_tree(width: Width, shape: &[u8], text: &mut [u8]) -> Result<usize, Refusal>
    ensures { Prints (print_tree (format_of width) shape.now text.old) (counted result) text.new }
{
    spelling::print::print_tree(shape, paper::format_of(width), text)
}

// Builds the index of a table: refusals 1 to 3; 14 where either list has fewer places than the table has rows; or the count of rows, with each row's
// last descendant, itself if none, and the next row of its type, 65,535 for none, at the front of what was lent; places past the rows stay as they
// were. A table may have more than 64 types.
pub fn build_index(
    width: Width,
    table: &[u8],
    last: &mut [u16],
    next: &mut [u16],
) -> Result<usize, Refusal>
    ensures { Builds (format_of width) table.now last.old next.old (built result) last.new next.new }
{
    indexes::build::build_index(table, paper::format_of(width), last, next)
}

// Judges a table and a shape, with the table's index, two lists of one place a row: `last`, the row's last descendant, and `next`, the next row of the
// same type. Refusals 1 to 4; 14 where either list has fewer places than the table has rows; 15 with the first row at which either list is not this
// table's; then 5 to 7. Places past the rows are not read. Where the lists are this table's, everything is as judging without an index has it.
pub fn judge_with_index(
    width: Width,
    table: &[u8],
    shape: &[u8],
    last: &[u16],
    next: &[u16],
) -> Result<Judged, Refusal>
    ensures { let asked = judge_with (format_of width) table.now shape.now last.now next.now in
        judged result ≡ in_numbers asked }
{
    judging::judge::judge_with_index(table, shape, paper::format_of(width), last, next)
}

// Reshapes a table, with its index: refusals 1 to 4, then 14 and 15 as judging with an index has them, then 5 to 8, or the new table and its source
// list, at the front of what was lent; what lies past them stays as it was. `ReshapesWith` says so of the answer and of every lent byte and place. Where
// the lists are this table's, everything is as reshaping without an index has it, with all that `Reshapes` promises.
pub fn reshape_with_index(
    width: Width,
    table: &[u8],
    shape: &[u8],
    last: &[u16],
    next: &[u16],
    new: &mut [u8],
    sources: &mut [u32],
) -> Result<usize, Refusal>
    ensures { let promised = ReshapesWith (format_of width) table.now shape.now last.now next.now in
        promised new.old sources.old (reshaped result) new.new sources.new }
{
    reshaping::reshape::reshape_with_index(
        table,
        shape,
        paper::format_of(width),
        last,
        next,
        new,
        sources,
    )
}

// Summarises a reshape, with the table's index: refusals 1 to 4, then 14 and 15 as judging with an index has them, then 5 to 8, with room for 4,096
// lines. Where the lists are this table's, everything is as summarising without an index has it.
pub fn summarise_with_index(
    width: Width,
    table: &[u8],
    shape: &[u8],
    last: &[u16],
    next: &[u16],
) -> Result<Summary, Refusal>
    ensures { summarised result ≡ summarise_with (format_of width) table.now shape.now last.now next.now }
{
    reshaping::summarise::summarise_with_index(table, shape, paper::format_of(width), last, next)
}
