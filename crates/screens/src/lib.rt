// The lines of two screens, put into a lent buffer: an entry's figures, and a type's rows with the type above. Each contract gives the whole
// text, by the definitions of specs/. The two functions that a program calls take a buffer in which every line has room, and ask for a level
// of at most 8; which lines are shown, and in what order, is left to the program.
#![tactic(auto)]

pub mod figures;
pub mod summary;
pub mod words;
