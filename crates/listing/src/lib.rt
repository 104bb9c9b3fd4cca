// The program's listing as text, put into a lent buffer. Every function here gives the bytes that it writes: numbers, label names, signed
// values, and the whole of each line, by the definitions of specs/. The four that the program calls take a buffer in which every line
// has room; which lines are printed, and in what order, is left to the program.
#![tactic(auto)]

pub mod answers;
pub mod edge;
pub mod line;
