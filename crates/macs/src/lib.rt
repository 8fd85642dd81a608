//! HMAC-SHA-256 (RFC 2104), and PBKDF2 with it and one iteration (RFC 8018, as RFC 7914 uses it).
//!
//! No call takes memory, and none refuses its arguments. The standards' SHA-256 takes messages of
//! fewer than 2^61 bytes. A longer one has its length modulo 2^64 bits in the padding, here and in
//! the definitions that the contracts cite.
//!
//! [`Hmac`] takes a message by pieces, and [`Pbkdf2Pair`] a salt; [`pbkdf2`] and [`pbkdf2_block`]
//! take it whole. The first vector of RFC 7914, section 11, with the salt in two pieces:
//!
//! ```
//! let mut pair = Pbkdf2Pair::new(b"passwd");
//! pair.update(b"sa");
//! pair.update(b"lt");
//! let mut key = [0u8; 64];
//! pair.write_key(&mut key);
//! assert_eq!(rt; &key[..4], [0x55, 0xac, 0x04, 0x6e].as_slice());
//! ```
#![tactic(auto)]

mod hmac;
mod pbkdf2_pair;
mod pbkdf2_sha256;

pub use hmac::Hmac;
pub use pbkdf2_pair::Pbkdf2Pair;
pub use pbkdf2_sha256::{pbkdf2, pbkdf2_block};
