// A stored table and its shape brought to the labels that end at 99: both are tested on the old range, the list of pairs is tested against
// them, and they are written only where all of it holds. Every list is walked as it is: no more than 99 pairs can be right, so that a walk
// over the pairs is a short one.
#![tactic(auto)]

pub mod convert;
pub mod pairs;
pub mod records;
