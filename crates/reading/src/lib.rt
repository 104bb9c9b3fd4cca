// The crate of the reader over a table; `silmezga` hands its module on under the same name.
#![tactic(auto)]

pub mod reader;
