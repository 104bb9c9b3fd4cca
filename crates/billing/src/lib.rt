// A history of tapes as the program shows it: each folder is taken into a running total by the library's `take_in`, with a line of text, and the total
// comes last. The lines are proved: a folder's line has both sums of its tape by itself, or its refusal, and the total afterwards is what `take_in` of
// the definitions leaves. What is read and written is the system's, and no theorem speaks of it; which words name which folders, and that the total
// goes from one to the next, is held by runs.
#![tactic(auto)]

pub mod entry;
pub mod folder;
pub mod history;
pub mod tape;
pub mod text;
