//! The program `scrypt` over any system: the command, with the words of a process.
#![tactic(auto)]

mod laws;
mod program;

pub use program::run;
