// What it is for a call's contract to ask nothing and to settle what a caller sees (proofs/Settles). It knows no table, and there is no code here.
#![tactic(auto)]
