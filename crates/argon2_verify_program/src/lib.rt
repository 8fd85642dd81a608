//! The program `argon2-verify` over any system: the command, with the words of a process.
#![tactic(auto)]

mod program;

pub use program::run;
