//! AES-256 (FIPS 197) and its Counter mode (NIST SP 800-38A, 6.5) with the counter blocks of scrypt's encrypted files.
//! No call takes memory, and none refuses.
//!
//! ```rust
//! use aes_ctr::{Aes256, Ctr};
//!
//! let key = [7; 32];
//!
//! let mut bytes = *b"a text that is cut in two";
//! let mut encryption = Ctr::new(Aes256::new(&key));
//! encryption.apply(&mut bytes[..19]);
//! encryption.apply(&mut bytes[19..]);
//!
//! // the same call decrypts
//! let mut decryption = Ctr::new(Aes256::new(&key));
//! decryption.apply(&mut bytes);
//! assert_eq!(rt; bytes, *b"a text that is cut in two");
//! assert_eq!(rt; decryption.position(), 25);
//! ```
//!
//! The tests run these lines. [`xor_blocks_with_key_stream`] does the same to whole blocks, from the block of any number on.
#![tactic(auto)]

mod add_round_key;
mod block_cipher;
mod cipher;
mod cipher_sixteen;
mod counter_mode;
mod key_expansion;
mod key_planes;
mod key_stream;
mod mix_columns;
mod mix_planes;
mod planes;
mod s_box;
mod shift_planes;
mod shift_rows;
mod sub_bytes;
mod sub_planes;
mod transposition;

pub use block_cipher::Aes256;
pub use counter_mode::Ctr;
pub use key_planes::KeyPlanes;
pub use key_stream::xor_blocks_with_key_stream;
