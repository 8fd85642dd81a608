//! The runs of `scrypt` over a host: `enc`, `dec` and `info`, once their words are read.
//!
//! | file | what |
//! |---|---|
//! | `admission` | the costs held against S and the limits |
//! | `encrypt` | the steps of `enc` once its costs are admitted and the input is opened |
//! | `decrypt` | those of `dec` once the first 96 bytes are read and their costs admitted |
//! | `front` | the first 96 bytes of a file, for `dec` and `info` |
//! | `inspect` | `info` |
//! | `run_memory` | the requests for memory of a run |
//! | `line` | the line of `info` |
//! | `passphrase` | the first line of a secret source |
//! | `run_encryption` | the run of `enc`: its steps, in the order of its refusals |
//! | `run_decryption` | that of `dec` |
//! | `run_request` | the run of a request: one of the three |
//!
//! A text there and back, over a host in memory; a run asks a host for an input once, so there are two:
//!
//! ```
//! let task = Task {
//!     limits: Limits {
//!         max_bytes: 1 << 20,
//!         max_ops: 1 << 20,
//!     },
//!     keep: 1,
//!     source: Source::StdinOnce,
//!     infile: Some("in"),
//!     outfile: Some("out"),
//! };
//! let encryption = Encryption {
//!     costs: Costs::new(4, 1, 1)?,
//!     salt: None,
//!     task,
//! };
//! let mut ticks = Ticks::new(alloc);
//! let mut host = MemoryHost::new(alloc, b"hello".to_vec(alloc)?, b"pw".to_vec(alloc)?, [7; 32]);
//! let mut memory = alloc;
//! run(&mut memory, &mut host, &Request::Encrypt(encryption), &mut ticks)?;
//! let file = host.output().to_vec(alloc)?;
//! assert_eq!(rt; file.len(), 133);
//!
//! let mut host = MemoryHost::new(alloc, file, b"pw".to_vec(alloc)?, [7; 32]);
//! run(&mut memory, &mut host, &Request::Decrypt(task), &mut ticks)?;
//! assert_eq!(rt; host.output(), b"hello".as_slice());
//! ```
#![tactic(auto)]

mod admission;
mod decrypt;
mod encrypt;
mod front;
mod inspect;
mod laws;
mod line;
mod passphrase;
mod refusal;
mod run_decryption;
mod run_encryption;
mod run_memory;
mod run_request;
mod vectors;

pub use line::Line;
pub use run_memory::RunMemory;
pub use run_request::run;
pub use scrypt_request::{Encryption, Request, ScryptRefusal, Task};
