//! Argon2d, Argon2i and Argon2id of RFC 9106 (version 0x13), and of version 0x10, which was before it.
//!
//! ```rust
//! use argon::{Inputs, Kind, Matrix, Params, Ticks};
//!
//! let params = Params::new(Kind::Id, 0x13, 3, 1, 64, 32, salt.len(), password.len())?;
//! let mut matrix = Matrix::reserve(alloc, &params)?;
//! let inputs = Inputs {
//!     password,
//!     salt,
//!     secret: &[],
//!     associated: &[],
//! };
//! let mut tag = [0; 32];
//! matrix.hash(&inputs, &mut tag, &mut Ticks::new(alloc));
//! ```
//!
//! A hash goes in three steps: [`Params::new`] tests the parameters, [`Matrix::reserve`] takes the
//! memory, and [`Matrix::hash`] writes the tag, as often as is wanted. [`Matrix::start`], `next`,
//! `slice` and `tag` do the same slice by slice. A [`Ticks`] counts block functions, that is, calls of
//! the compression function G. It takes no bytes and no time.
//!
//! A [`Weave`] makes a slice block by block, by lanes in any order, with the room of [`Lanes`]. This
//! makes the next slice of a matrix of two lanes, a block of each in turn:
//!
//! ```rust
//! let mut weave = Weave::open(matrix, lanes, ticks);
//! for _ in 0..weave.left(0) {
//!     weave.step(1, ticks);
//!     weave.step(0, ticks);
//! }
//! weave.close()
//! ```
//!
//! [`plan_segment`] tells in advance which blocks a segment of independent addressing reads;
//! [`Params::is_independent`] says which segments these are.
//!
//! [`compression::compression`] is the compression function G alone, on any two blocks, and [`Matrix::as_blocks`] are
//! those of the matrix. Who has a source of memory of their own, a [`MatrixMemory`], takes a matrix from it by
//! [`matrix::reserve_from`], and lanes by [`lanes::reserve_from`].
#![tactic(auto)]

mod addresses;
mod block;
mod blocks;
mod clients;
pub mod compression;
mod compute_and_store_block;
mod fault;
mod first_columns;
mod four_lists;
mod inputs;
mod kind;
pub mod lanes;
pub mod matrix;
mod matrix_memory;
mod numbers;
mod params;
mod permutation;
mod places;
mod plan;
mod segment;
mod tag;
mod ticks;
mod weave;
mod wiped_blocks;

pub use block::{Block, write_xor, xor_two_blocks_into};
pub use fault::ParamFault;
pub use inputs::Inputs;
pub use kind::Kind;
pub use lanes::Lanes;
pub use matrix::Matrix;
pub use matrix_memory::MatrixMemory;
pub use numbers::GrantedNumbers;
pub use params::Params;
pub use places::Place;
pub use plan::plan_segment;
pub use ticks::Ticks;
pub use weave::Weave;
pub use wiped_blocks::GrantedBlocks;
