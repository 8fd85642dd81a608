//! The command `scrypt` over a host: its whole run.
//!
//! The command asks the world for everything through the trait [`Host`](host::Host), so its contract can say
//! what a run comes to, whatever the host is.
#![tactic(auto)]

mod laws;
mod run;

pub use run::{run_without_report, scrypt};
pub use scrypt_request::ScryptRefusal;
