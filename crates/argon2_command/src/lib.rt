//! The command `argon2` over a host: its whole run, which is one hash of the whole standard input.
//!
//! The command asks the world for everything through the trait [`Host`](host::Host), so its contract can say
//! what a run comes to, whatever the host is.
#![tactic(auto)]

mod bytes;
mod laws;
mod line;
mod output;
mod password;
mod run;
mod run_memory;
mod vectors;

pub use argon2_words::Argon2Refusal;
pub use bytes::Bytes;
pub use run::{argon2, run_without_report};
pub use run_memory::RunMemory;
