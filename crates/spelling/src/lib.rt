// A shape printed as a line of text, which reads back as the same shape. `line` puts the line into a buffer in which every line has room, and
// `print` is the whole call, which touches nothing lent before the line's length is known.
#![tactic(auto)]

pub mod line;
pub mod print;
