// Rows of a lent table: the row rules, where two rows meet, examining and look-up. A row is handed on as its own bytes from the
// middle of the table. Everything takes the format, so that it serves every width.
#![tactic(auto)]

pub mod row;
pub mod table;
