// What the program does, as functions that take the names of its files or of its folder: they read, call the library and write. Each ends with
// `Stopped` where not all that it had to write was taken; where a write fails, nothing more is written, and standard error says so. Which texts are
// written is proved below this crate; what is read and written is the system's, and no theorem speaks of it.
#![tactic(auto)]

pub mod edges;
pub mod figures;
pub mod files;
pub mod folder;
pub mod marked;
pub mod new_table;
pub mod out;
pub mod refusal;
pub mod report;
pub mod screen;
pub mod tape;
pub mod typed_tree;
pub mod types_tree;
pub mod wanted;
pub mod width;
pub mod words;
