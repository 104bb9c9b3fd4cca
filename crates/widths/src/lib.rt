// A file of one format as one of another, into lent bytes: a table or a shape is tested, looked through for what is too deep, and
// written only where all of it fits. Which two formats these are is left to the layers above.
#![tactic(auto)]

pub mod moves;
pub mod records;
