//! The command `argon2-verify` over a host: whether a password belongs to a stored hash.
//!
//! The command asks the world for everything through the trait [`Host`](host::Host), so its contract can say
//! what a run comes to, whatever the host is.
#![tactic(auto)]

mod hash;
mod laws;
mod password;
mod refusal;
mod request;
mod run;
mod vectors;

pub use refusal::VerifyRefusal;
pub use request::{Limits, Request, read_request};
pub use run::{argon2_verify, run_without_report};
