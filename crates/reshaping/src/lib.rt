// Reshaping: the new table and its source list, and the summary of a reshape. The public calls are `reshape` and `summarise`. Which
// links a new table keeps is judging's to say, and what its two answers mean for the new table is part of `reshape`'s contract, demand 3 among it.
#![tactic(auto)]

pub mod figures;
pub mod reshape;
pub mod summarise;
