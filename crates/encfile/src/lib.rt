//! scrypt's encrypted file, version 0 (the FORMAT file of Tarsnap's scrypt): written and read in
//! pieces of any size.
//!
//! | bytes | what |
//! |---|---|
//! | 0 to 47 | the text `scrypt`, the version 0, log2 N, r and p, the salt |
//! | 48 to 63 | the checksum: the first 16 bytes of the SHA-256 of those before |
//! | 64 to 95 | the header code: the HMAC-SHA-256 of those before |
//! | from 96 on | the text, encrypted with AES-256 in counter mode |
//! | the last 32 | the final code: the HMAC-SHA-256 of those before |
//!
//! [`Enc`] gives the file of a text. [`Header`] and [`Dec`] read a file: the text comes out before
//! the final code is tested, so that only [`Dec::finish`] tells whether it can be trusted. No call
//! takes memory: the derivation of the keys works in the `Workspace` that is handed in, which may keep
//! the whole table or a sparse one. The file doesn't depend on it.
//!
//! A text there and back, made with the whole table and opened with a quarter of it:
//!
//! ```
//! let costs = Costs::new(4, 1, 1)?;
//! let limits = Limits {
//!     max_bytes: 1 << 20,
//!     max_ops: 1 << 20,
//! };
//! let whole = Sparse::whole(&costs);
//! whole.admitted(&limits)?;
//! let mut whole = Workspace::reserve(rt.alloc(), &whole)?;
//! let salt = [7u8; 32];
//! let mut ticks = Ticks::new(rt.alloc());
//! let mut enc = Enc::start(&costs, &salt, b"pw", &mut whole, &mut ticks);
//! let front = enc.header();
//! let mut text = *b"hello";
//! enc.feed(&mut text)?;
//! let code = enc.finish();
//!
//! let header = Header::of_front(&front)?;
//! let quarter = Sparse::new(header.costs(), 4)?;
//! quarter.admitted(&limits)?;
//! let mut quarter = Workspace::reserve(rt.alloc(), &quarter)?;
//! let mut dec = Dec::open(&front, header, b"pw", &mut quarter, &mut ticks)?;
//! let mut out = [0u8; 64];
//! assert_eq!(rt; dec.feed(&text, &mut out)?, 0);
//! assert_eq!(rt; dec.feed(&code, &mut out)?, 5);
//! assert!(rt; out.starts_with(b"hello"));
//! dec.finish()?;
//! ```
#![tactic(auto)]

mod dec;
mod enc;
mod fault;
mod header;
mod header_bytes;
mod keys;
mod tail;

pub use dec::Dec;
pub use enc::Enc;
pub use fault::{Damaged, HeaderFault, TooLong, WrongPassphrase};
pub use header::Header;
