// Judging: the edges of a shape, the search for a row without a partner, the first pair of entries that earns a 2 or a 3, and the second
// answer, whether any pair earns a 2. The public call is `judge`. Everything serves every width: the walks read the rows' levels and types
// alone. What the verdict and the second answer mean for a new table is the paper's (demand 3, request 12).
#![tactic(auto)]

pub mod full;
pub mod judge;
pub mod lone;
pub mod pairs;
pub mod second;
pub mod verdict;
