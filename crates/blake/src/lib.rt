//! BLAKE2b without a key (RFC 7693), and the variable-length hash H' that Argon2 builds on it
//! (RFC 9106, 3.3).
//!
//! [`Blake2b`] takes a message in pieces and gives its hash of 1 to 64 bytes. [`long_hash`] gives
//! 1 to 4,096 bytes for parts that are taken as one message. No call takes memory, and none is
//! refused.
//!
//! ```rust
//! use blake::{Blake2b, long_hash};
//!
//! let mut hash = Blake2b::new(64);
//! hash.update(b"a");
//! hash.update(b"bc");
//! let mut digest = [0; 64];
//! hash.finish(&mut digest);
//!
//! let mut block = [0; 1024];
//! long_hash(&[&digest, &[0, 0, 0, 0]], &mut block);
//! ```
#![tactic(auto)]

mod compression;
mod hasher;
mod variable_length;

pub use hasher::Blake2b;
pub use variable_length::long_hash;
