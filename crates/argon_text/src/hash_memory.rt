//! Where the memory of a hash comes from: the heap, or what a caller puts in its place.
ghost use Rattle.std.specs.Prelude.{◌≡◌, ℕ, Bool, Ok, is_ok, IfOk};
ghost use Rattle.argon.specs.Parameters.{Parameters};
ghost use Rattle.argon.specs.Range.{admission};

use argon::{Matrix, Params};
use std::alloc::{AllocError, Global};

/// Where `verify` and `verify_keyed` take the memory of a hash: the heap (`Global`), or a type of the caller's that
/// counts requests or refuses some. Contracts see how many there are, of what, and what came of each; but of the heap
/// they see nothing, since it has no state.
pub trait HashMemory {
    // The state in which a request for the matrix of a hash with these parameters, which limits of so many KiB and block
    // functions admit, leaves the source; `true`: it was granted.
    ghost after_matrix: { Self → Parameters → ℕ → ℕ → Bool → Self };

    /// The matrix of a hash with these parameters, which the limits admit: so none is asked for before
    /// the limits are tested.
    fn matrix(&mut self, params: &Params, max_kib: u32, max_ops: u64) -> Result<Matrix, AllocError>
        requires admitted { admission params.now max_kib max_ops ≡ Ok tt }
        ensures parameters { IfOk result (λ matrix. matrix.parameters ≡ params.now) }
        ensures asked { self.new ≡ after_matrix self.old params.now max_kib max_ops (is_ok result) };
}

impl HashMemory for Global {
    ghost after_matrix = { λ source _ _ _ _. source };

    fn matrix(&mut self, params: &Params, _: u32, _: u64) -> Result<Matrix, AllocError> {
        Matrix::reserve(*self, params)
    }
}
