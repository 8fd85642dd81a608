//! Where the lists of a workspace come from.
ghost use Rattle.std.specs.Prelude.{◌≡◌, ℕ, Bool, IfOk, is_ok, vec_len};

use crate::wiped_words::GrantedWords;
use std::alloc::{AllocError, Global};

/// A source of the lists of words that a workspace holds. The allocator is one; a caller's own may count what
/// it is asked for, or refuse it. Contracts see how many lists are asked for, of what length, and which of them
/// are granted; what stands in them does not matter. What is granted can't grow, and hands on no heap.
pub trait WorkspaceMemory {
    // What a request for so many words leaves of the source, granted or refused.
    ghost after_words: { Self → ℕ → Bool → Self };

    /// So many words of four bytes, or the fault of a source that has no such list. The heap gives zeros; what
    /// the words are does not matter.
    fn request_words(&mut self, len: usize) -> Result<GrantedWords, AllocError>
        ensures len { IfOk result (λ words. vec_len words.list ≡ len) }
        ensures asked { self.new ≡ after_words self.old len (is_ok result) };

    /// A list of no words, for which nothing is asked for.
    fn no_words(&self) -> GrantedWords
        ensures none { vec_len result.list ≡ 0 };
}

impl WorkspaceMemory for Global {
    ghost after_words = { λ source _ _. source };

    fn request_words(&mut self, len: usize) -> Result<GrantedWords, AllocError> {
        Ok(GrantedWords::new(vec![in *self; 0; len]?))
    }

    fn no_words(&self) -> GrantedWords {
        GrantedWords::new(Vec::new(*self))
    }
}
