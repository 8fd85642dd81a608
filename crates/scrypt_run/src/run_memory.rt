//! Where the memory of a run comes from: the heap, or what a test puts in its place to refuse it.
ghost use Rattle.std.specs.Prelude.{◌≡◌, ◌≤◌, ◌^◌, Bool, IfOk, is_ok};
ghost use Rattle.romix.specs.Costs.{Parameters};
ghost use Rattle.romix.specs.SparseCosts.{CostsAndKeep, cores_bound};
ghost use Rattle.scrypt_run.specs.Admission.{AreCostsWithinLimits};
ghost use Rattle.scrypt_run.specs.Inspecting.{costs_line};

use crate::line::Line;
use romix::{Costs, Limits, Sparse, Workspace};
use std::alloc::{AllocError, Global};

/// The requests for memory of a run, which has no other source. Contracts see how many there are, of
/// what, and which of them are granted. What is given cannot grow, and hands on no heap.
pub trait RunMemory {
    // What a request for the memory of a derivation leaves of the source, granted or refused.
    ghost after_workspace: { Self → CostsAndKeep → Bool → Self };

    // The same of a line of costs.
    ghost after_line: { Self → Parameters → Bool → Self };

    /// The memory of a derivation of these costs, which the limits admit: so none is asked for before
    /// the limits were tested.
    fn workspace(&mut self, sparse: &Sparse, limits: &Limits) -> Result<Workspace, AllocError>
        requires allowed { limits.now.max_bytes ≤ 2 ^ 40 }
        requires admitted { AreCostsWithinLimits sparse.now limits.now }
        ensures same { IfOk result (λ w. w.sparse ≡ sparse.now) }
        ensures work { IfOk result (λ w. cores_bound w.sparse ≤ limits.now.max_ops) }
        ensures asked { self.new ≡ after_workspace self.old sparse.now (is_ok result) };

    /// The line that tells costs, with its line feed.
    fn line(&mut self, costs: &Costs) -> Result<Line, AllocError>
        ensures line { IfOk result (λ line. line ≡ costs_line costs.now) }
        ensures asked { self.new ≡ after_line self.old costs.now (is_ok result) };
}

impl RunMemory for Global {
    ghost after_workspace = { λ memory _ _. memory };

    ghost after_line = { λ memory _ _. memory };

    fn workspace(&mut self, sparse: &Sparse, _limits: &Limits) -> Result<Workspace, AllocError> {
        Workspace::reserve(*self, sparse)
    }

    fn line(&mut self, costs: &Costs) -> Result<Line, AllocError> {
        Line::of_costs(*self, costs)
    }
}
