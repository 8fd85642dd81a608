//! Where the memory of a matrix and of lanes comes from: the heap, or a source of the caller's own.
ghost use Rattle.std.specs.Prelude.{◌≡◌, ℕ, Bool, IfOk, is_ok, vec_len};

use crate::numbers::GrantedNumbers;
use crate::wiped_blocks::GrantedBlocks;
use std::alloc::{AllocError, Global};

/// A source of the memory of a matrix and of lanes: the heap, which `Matrix::reserve` and `Lanes::reserve` use, or one of
/// your own, which counts requests, say, or refuses some. [`matrix::reserve_from`](crate::matrix::reserve_from) and
/// [`lanes::reserve_from`](crate::lanes::reserve_from) take it. Contracts see how many requests there are, of what size, and
/// which of them are granted. What is granted can't grow, and hands on no heap.
pub trait MatrixMemory {
    // What a request for so many blocks leaves of the source, granted or refused.
    ghost after_blocks: { Self → ℕ → Bool → Self };

    // The same of numbers.
    ghost after_numbers: { Self → ℕ → Bool → Self };

    /// So many blocks of 1,024 bytes, whatever stands in them. `AllocError` where they are refused, and then nothing is
    /// held.
    fn blocks(&mut self, count: usize) -> Result<GrantedBlocks, AllocError>
        ensures size { IfOk result (λ blocks. vec_len blocks.list ≡ count) }
        ensures asked { self.new ≡ after_blocks self.old count (is_ok result) };

    /// So many numbers of four bytes, whatever they are. `AllocError` where they are refused, and then nothing is held.
    fn numbers(&mut self, count: usize) -> Result<GrantedNumbers, AllocError>
        ensures size { IfOk result (λ numbers. vec_len numbers.list ≡ count) }
        ensures asked { self.new ≡ after_numbers self.old count (is_ok result) };
}

impl MatrixMemory for Global {
    ghost after_blocks = { λ memory _ _. memory };

    ghost after_numbers = { λ memory _ _. memory };

    fn blocks(&mut self, count: usize) -> Result<GrantedBlocks, AllocError> {
        Ok(GrantedBlocks::new(vec![in *self; [0; 128]; count]?))
    }

    fn numbers(&mut self, count: usize) -> Result<GrantedNumbers, AllocError> {
        Ok(GrantedNumbers::new(vec![in *self; 0; count]?))
    }
}
