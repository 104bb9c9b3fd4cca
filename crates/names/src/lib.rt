// The names of labels, written and read by one table of twenty names, and text put into a lent buffer.
#![tactic(auto)]

pub mod names;
pub mod put;
pub mod word;
