//! A source of memory that refuses requests.
ghost use Rattle.std.specs.Prelude.{◌≡◌, ◌-◌, Some};
ghost use Rattle.command_tests.specs.declared.tests.of_argon2_verify.refusing.Asked.TheVariants as asked;

use argon::{Matrix, Params};
use argon_text::{DecodeMemory, HashMemory};
use base64::DecodeAllocError;
use std::alloc::{AllocError, Global};

/// A request for memory.
#[derive(Clone, Copy, PartialEq, Eq)]
pub enum Asked {
    Bytes,
    Matrix,
}

/// Grants so many requests, and refuses the others. It keeps the last one.
#[derive(Drop)]
pub struct Refusing {
    pub alloc: Global,
    pub left: u32,
    pub last: Option<Asked>,
}

impl Refusing {
    // Whether a request is granted.
    fn grants(&mut self, asked: Asked) -> bool
        ensures asked { self.new ≡ record self.old { left = self.old.left - 1; last = Some asked } }
    {
        let grants = self.left > 0;
        self.left = self.left.saturating_sub(1);
        self.last = Some(asked);
        grants
    }
}

impl DecodeMemory for Refusing {
    ghost after_decoded = { λ memory _ _. record memory { left = memory.left - 1; last = Some asked.Bytes } };

    fn decode_base64(&mut self, symbols: &[u8]) -> Result<Vec<u8>, DecodeAllocError> {
        if !self.grants(Asked::Bytes) {
            return Err(DecodeAllocError::OutOfMemory);
        }
        let mut alloc = self.alloc;
        alloc.decode_base64(symbols)
    }
}

impl HashMemory for Refusing {
    ghost after_matrix = { λ memory _ _ _ _. record memory { left = memory.left - 1; last = Some asked.Matrix } };

    fn matrix(
        &mut self,
        params: &Params,
        max_kib: u32,
        max_ops: u64,
    ) -> Result<Matrix, AllocError> {
        if !self.grants(Asked::Matrix) {
            return Err(AllocError);
        }
        let mut alloc = self.alloc;
        alloc.matrix(params, max_kib, max_ops)
    }
}
