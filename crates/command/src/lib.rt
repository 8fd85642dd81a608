//! The commands over a host: the calls of both, and what a caller needs for them.
//!
//! Each command is a crate of its own, with its contract. A command asks the world for everything through
//! the trait [`Host`], so its contract can say what a run comes to, whatever the host is.
#![tactic(auto)]

mod handed_on;

pub use argon2_command::{Argon2Refusal, argon2};
pub use host::{Host, HostFault, Source};
pub use memory_host::MemoryHost;
pub use scrypt_command::{ScryptRefusal, scrypt};
