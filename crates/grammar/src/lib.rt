// Wanted trees as a line of text: the grammar and the answers as definitions (specs/), and what is proved of them (proofs/). There is no code here.
#![tactic(auto)]
