//! What the words of both commands have in common: number words, and the definition of steps of which the
//! first refusal decides.
#![tactic(auto)]

mod numbers;

pub use numbers::{number, number_in};
