//! Sources of memory that refuse one request.
ghost use Rattle.std.specs.Prelude.{◌≡◌, ◌-◌};

use argon::{Matrix, Params};
use argon_text::{DecodeMemory, HashMemory, TextMemory};
use base64::DecodeAllocError;
use std::alloc::{AllocError, Global};

/// Grants so many requests and refuses the others. Of ten it counts how many are not made.
#[derive(Drop)]
pub struct Refusing {
    pub alloc: Global,
    pub left: u32,
    pub unasked: u32,
}

impl Refusing {
    // Whether a request is granted.
    fn grants(&mut self) -> bool
        ensures left { self.new ≡ record self.old { left = self.old.left - 1; unasked = self.old.unasked - 1 } }
    {
        let grants = self.left > 0;
        self.left = self.left.saturating_sub(1);
        self.unasked = self.unasked.saturating_sub(1);
        grants
    }
}

impl DecodeMemory for Refusing {
    ghost after_decoded = { λ source _ _. record source { left = source.left - 1; unasked = source.unasked - 1 } };

    fn decode_base64(&mut self, symbols: &[u8]) -> Result<Vec<u8>, DecodeAllocError> {
        if !self.grants() {
            return Err(DecodeAllocError::OutOfMemory);
        }
        let mut alloc = self.alloc;
        alloc.decode_base64(symbols)
    }
}

impl HashMemory for Refusing {
    ghost after_matrix = { λ source _ _ _ _. record source { left = source.left - 1; unasked = source.unasked - 1 } };

    fn matrix(
        &mut self,
        params: &Params,
        max_kib: u32,
        max_ops: u64,
    ) -> Result<Matrix, AllocError> {
        if !self.grants() {
            return Err(AllocError);
        }
        let mut alloc = self.alloc;
        alloc.matrix(params, max_kib, max_ops)
    }
}

/// Grants all requests for a text but one, which is counted from 1.
#[derive(Drop)]
pub struct RefusingText {
    pub alloc: Global,
    pub asked: u32,
    pub refused: u32,
}

impl RefusingText {
    // Whether a request is granted.
    fn grants(&mut self) -> bool {
        self.asked = self.asked.saturating_add(1);
        self.asked != self.refused
    }
}

impl TextMemory for RefusingText {
    fn no_text(&self) -> String {
        self.alloc.no_text()
    }

    fn symbols(&mut self, bytes: &[u8]) -> Result<String, AllocError> {
        if !self.grants() {
            return Err(AllocError);
        }
        self.alloc.symbols(bytes)
    }

    fn digits(&mut self, number: u32) -> Result<String, AllocError> {
        if !self.grants() {
            return Err(AllocError);
        }
        self.alloc.digits(number)
    }

    fn push(&mut self, text: &mut String, part: &str) -> Result<(), AllocError> {
        if !self.grants() {
            return Err(AllocError);
        }
        self.alloc.push(text, part)
    }

    fn append(&mut self, list: &mut Vec<u8>, bytes: &[u8]) -> Result<(), AllocError> {
        if !self.grants() {
            return Err(AllocError);
        }
        self.alloc.append(list, bytes)
    }
}
