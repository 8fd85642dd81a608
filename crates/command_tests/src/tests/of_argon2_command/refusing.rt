//! A source of memory that refuses one request.
ghost use Rattle.std.specs.Prelude.{◌≡◌, ◌-◌, Some};
ghost use Rattle.command_tests.specs.declared.tests.of_argon2_command.refusing.Asked.TheVariants as asked;

use argon::{Matrix, Params};
use argon2_command::{Bytes, RunMemory};
use argon2_words::{Request, Settings};
use std::alloc::{AllocError, Global};

/// A request for memory.
#[derive(Clone, Copy, PartialEq, Eq)]
pub enum Asked {
    Zeros,
    Line,
    Matrix,
}

/// Grants so many requests, and refuses the next. It keeps the last one.
#[derive(Drop)]
pub struct Refusing {
    pub alloc: Global,
    pub left: u32,
    pub last: Option<Asked>,
}

impl Refusing {
    // Whether a request is granted.
    fn grants(&mut self, asked: Asked) -> bool
        ensures asked { self.new ≡ record self.old { left = self.old.left - 1; last = Some asked } }
    {
        self.last = Some(asked);
        if self.left == 0 {
            return false;
        }
        self.left -= 1;
        true
    }
}

impl RunMemory for Refusing {
    ghost effects = { record {
      after_zeros = λ memory _ _. record memory { left = memory.left - 1; last = Some asked.Zeros };
      after_line = λ memory _ _ _. record memory { left = memory.left - 1; last = Some asked.Line };
      after_matrix = λ memory _ _. record memory { left = memory.left - 1; last = Some asked.Matrix };
    } };

    fn zeros(&mut self, count: usize) -> Result<Bytes, AllocError> {
        if !self.grants(Asked::Zeros) {
            return Err(AllocError);
        }
        self.alloc.zeros(count)
    }

    fn line(&mut self, request: &Request<'_>, tag: &[u8]) -> Result<Bytes, AllocError> {
        if !self.grants(Asked::Line) {
            return Err(AllocError);
        }
        self.alloc.line(request, tag)
    }

    fn matrix(&mut self, params: &Params, settings: &Settings) -> Result<Matrix, AllocError> {
        if !self.grants(Asked::Matrix) {
            return Err(AllocError);
        }
        self.alloc.matrix(params, settings)
    }
}
