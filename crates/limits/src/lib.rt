// Samples of the definitions of `paper` at their limits (specs/), which take long tables. There is no code here.
#![tactic(auto)]
