// The lines of a new table: counted before any is written, then written. Rows are their places, levels and type numbers, and a run of rows
// that agree to a level is named by its first row (crate `closest`). Whether lines fit is the caller's to find out, by counting first.
#![tactic(auto)]

pub mod count;
pub mod firsts;
pub mod plan;
pub mod put;
pub mod table;
pub mod write;
