// What widening, narrowing and converting keep, as theorems over the definitions of `paper` (proofs/). There is no code here.
#![tactic(auto)]
