//! Encoded texts of Argon2 hashes, and the test of a password against one.
//!
//! A text is the form that the reference implementation of Argon2 writes and reads (encoding.c): the
//! parameters, the salt and the tag in one line, as
//! `$argon2id$v=19$m=65536,t=2,p=1$c29tZXNhbHQ$RdescudvJCsgt3ub+b0dWRWJTmaQXtXU`.
//! Its definition, apart from this code, is `specs/EncodedText.antt`, and the grammar that texts are
//! told by is `specs/Grammar.antt`.
//!
//! A text of Argon2i is read, two passwords are tried, each in at most 256 KiB and 526 block functions,
//! and the text is written again (`Ticks` is that of `argon`):
//!
//! ```
//! let text = b"$argon2i$v=19$m=256,t=2,p=1$c29tZXNhbHQ$iekCn0Y3spW+sCcFanM2xBT63UP2sghkUoHLIUpWRS8";
//! let encoded = Encoded::read(alloc, text)?;
//! let view = HashView::of(&encoded);
//! let mut source = alloc;
//! let mut ticks = Ticks::new(alloc);
//! assert!(rt; verify(&mut source, &view, b"password", 256, 526, &mut ticks)?);
//! assert!(rt; !verify(&mut source, &view, b"Password", 256, 526, &mut ticks)?);
//! let mut again = Vec::new(alloc);
//! encoded.write(&mut again)?;
//! assert_eq!(rt; again.as_slice(), text.as_slice());
//! ```
#![tactic(auto)]

mod decode_memory;
mod encoded;
mod fault;
mod fields;
mod hash_memory;
mod hash_view;
mod range;
mod read;
mod settings;
mod text_memory;
mod verify_password;

pub use decode_memory::DecodeMemory;
pub use encoded::{Encoded, replace_tag};
pub use fault::{ReadFault, VerifyFault};
pub use hash_memory::HashMemory;
pub use hash_view::HashView;
pub use range::{RangeFault, first_encoded_range_fault};
pub use read::read_encoded_with_memory;
pub use settings::Settings;
pub use text_memory::TextMemory;
pub use verify_password::{verify, verify_keyed};
