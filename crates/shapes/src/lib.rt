// Shapes from lent bytes, beside a table: the entry rules, the parent, way and type of each entry, and refusals 5 to 7 in their
// order. What the entries ask of the table's rows is left to the layers above. Everything takes the format, so that it serves
// every width.
#![tactic(auto)]

pub mod edges;
pub mod entry;
pub mod entry_types;
pub mod shape;
pub mod tests;
pub mod ways;
pub mod work;
