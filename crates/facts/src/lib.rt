// What is reported of a row, an entry or a typed tree that an answer names, and of the edges of a shape, as text put into a lent buffer. Every function
// here gives the bytes that it writes, by the definitions of specs/. Which rows, entries and places an answer names is left to the caller.
#![tactic(auto)]

pub mod edge;
pub mod entry;
pub mod row;
pub mod tree;
