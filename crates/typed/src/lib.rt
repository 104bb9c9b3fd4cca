// Wanted trees typed as a line of text, read over a table. `matching` finds the one type that a name matches, `walk` reads the text once from
// its first byte to its last, `records` writes the entries of a shape, and `read` is the whole call.
#![tactic(auto)]

pub mod matching;
pub mod read;
pub mod records;
pub mod walk;
