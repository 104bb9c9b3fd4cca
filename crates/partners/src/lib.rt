// How many partners: for every edge of a shape the least and the greatest number of closest rows, both ways. One walk along the rows counts
// eight edges at a time, run by run; an edge is named by its lower entry. What the numbers mean for a verdict is left to judging.
#![tactic(auto)]

pub mod edges;
pub mod eight;
