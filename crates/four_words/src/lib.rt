//! Lists of words, and vectors of four, as contracts and proofs speak of them: the crates whose cores
//! work on such vectors share these definitions and lemmas. There is no code here.
#![tactic(auto)]
