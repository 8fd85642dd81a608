//! scrypt (RFC 7914): its costs, the Salsa20/8 core, BlockMix, ROMix, and the derivation of a key.
//!
//! [`Costs`] are the parameters, and [`Sparse`] says besides how many rows of the table are kept: with
//! S above 1 a derivation takes 1/S of the table's memory, and up to (1 + S) / 2 times the work. The
//! key is the same. [`Workspace::reserve`] takes all the memory of a derivation, and [`reserve_from`] takes
//! it from a [`WorkspaceMemory`] of the caller's; nothing in it grows with p. No other call takes any, and none
//! but [`Costs::new`], [`Sparse::new`] and `admitted` of both refuses its arguments. Each call that applies
//! the core counts that in a [`Ticks`], which contracts see and which has no bytes. [`salsa8`], [`block_mix`]
//! and [`romix::romix`] are the steps alone.
//!
//! The third vector of RFC 7914, section 12, whose table has 16 MiB, in 1 MiB:
//!
//! ```
//! let costs = Costs::new(14, 8, 1)?;
//! let limits = Limits { max_bytes: 1 << 20, max_ops: 1 << 23 };
//! assert!(rt; costs.admitted(&limits).is_err());
//! let sparse = Sparse::new(&costs, 16)?;
//! sparse.admitted(&limits)?;
//! let mut workspace = Workspace::reserve(rt.alloc(), &sparse)?;
//! let mut key = [0u8; 64];
//! workspace.derive(b"pleaseletmein", b"SodiumChloride", &mut key, &mut Ticks::new(rt.alloc()));
//! assert_eq!(rt; &key[..4], [0x70, 0x23, 0xbd, 0xcb].as_slice());
//! ```
//!
//! Inside a derivation words stand in vectors of four along the diagonals of the core's state.
//! The contracts know nothing of it: they speak of words and bytes in the standard's order.
#![tactic(auto)]

mod block_mix_by_rows;
mod costs;
mod fault;
mod lanes;
mod limits;
mod parts;
mod reservation;
pub mod romix;
mod salsa20;
mod sparse;
mod table;
mod ticks;
mod wiped_words;
mod words;
mod workspace;

pub use block_mix_by_rows::block_mix;
pub use costs::Costs;
pub use fault::CostFault;
pub use limits::Limits;
pub use reservation::WorkspaceMemory;
pub use salsa20::salsa8;
pub use sparse::Sparse;
pub use ticks::Ticks;
pub use wiped_words::GrantedWords;
pub use workspace::{Workspace, reserve_from};
