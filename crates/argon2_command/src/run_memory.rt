//! Where the memory of a run comes from: the heap, or what a caller puts in its place.
ghost use Rattle.std.specs.Prelude.{◌≡◌, Ok, IfOk, is_ok, length, true};
ghost use Rattle.argon.specs.Range.{admission};
ghost use Rattle.argon_text.specs.Value.{is_in_range};
ghost use Rattle.argon2_command.specs.MemoryRequestEffects.{MemoryRequestEffects};
ghost use Rattle.argon2_command.specs.Output.{tag_line, value_of_request_and_tag};
ghost use Rattle.argon2_words.specs.RequestView.{argon2_request_view};

use crate::bytes::Bytes;
use crate::line::tag_line;
use argon::{Matrix, Params};
use argon2_words::{Request, Settings};
use std::alloc::{AllocError, Global};

/// The requests for memory of a run, which has no other source: the heap (`Global`), or a type of the
/// caller's that counts requests or refuses some. All of them are made before the hash.
/// Contracts see how many there are, of what, and which of them are granted. What is given cannot grow,
/// and hands on no heap.
pub trait RunMemory {
    // What each request leaves of the source, granted or refused.
    ghost effects: { MemoryRequestEffects Self };

    /// So many bytes, whatever they are: the heap gives zeros.
    fn zeros(&mut self, count: usize) -> Result<Bytes, AllocError>
        ensures size { IfOk result (λ bytes. length bytes.list.items ≡ count) }
        ensures asked { self.new ≡ effects.after_zeros self.old count (is_ok result) };

    /// The line of a tag.
    fn line(&mut self, request: &Request<'_>, tag: &[u8]) -> Result<Bytes, AllocError>
        requires in_range { is_in_range (value_of_request_and_tag (argon2_request_view request.now) tag.now) ≡ true }
        ensures line { IfOk result (λ line. line.list.items ≡ tag_line (argon2_request_view request.now) tag.now) }
        ensures asked { self.new
            ≡ effects.after_line self.old (argon2_request_view request.now) (length tag.now) (is_ok result) };

    /// The matrix of a hash with these parameters, which the settings' limits admit: so none is asked
    /// for before the limits are tested.
    fn matrix(&mut self, params: &Params, settings: &Settings) -> Result<Matrix, AllocError>
        requires admitted { admission params.now settings.now.max_memory_kib settings.now.max_ops ≡ Ok tt }
        ensures parameters { IfOk result (λ matrix. matrix.parameters ≡ params.now) }
        ensures asked { self.new ≡ effects.after_matrix self.old params.now (is_ok result) };
}

impl RunMemory for Global {
    ghost effects = { record {
      after_zeros = λ memory _ _. memory;
      after_line = λ memory _ _ _. memory;
      after_matrix = λ memory _ _. memory;
    } };

    fn zeros(&mut self, count: usize) -> Result<Bytes, AllocError> {
        Bytes::zeros(*self, count)
    }

    fn line(&mut self, request: &Request<'_>, tag: &[u8]) -> Result<Bytes, AllocError> {
        tag_line(*self, request, tag)
    }

    fn matrix(&mut self, params: &Params, _settings: &Settings) -> Result<Matrix, AllocError> {
        Matrix::reserve(*self, params)
    }
}
