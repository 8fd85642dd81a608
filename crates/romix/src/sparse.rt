//! Costs over a sparse table.
ghost use Rattle.std.specs.Prelude.{◌≡◌, ◌≤◌, Some, None, IfOk, IfErr, OnOk};
ghost use Rattle.romix.specs.Faults.{keep_parameter_fault, sparse_limit_fault};
ghost use Rattle.romix.specs.SparseCosts.{HasCostsAndKeepInRange, SparseFitsMemory, cores_bound, sparse_table_bytes, whole};

use crate::costs::Costs;
use crate::fault::CostFault;
use crate::limits::Limits;
use std::marker::Model;

/// Costs, and S: of the rows of the table, those are kept whose number S divides. S is a power of
/// two from 1 to 1,024 and at most N. With S = 1 the table is whole.
#[derive(Debug, Clone, Copy, PartialEq, Eq, Drop)]
pub struct Sparse {
    costs: Costs,
    keep: u64,
}

impl Model for Sparse {
    ghost use Rattle.romix.specs.SparseCosts.{HasCostsAndKeepInRange, CostsAndKeep};

    ghost Value = { CostsAndKeep };

    ghost view = { λ s. record { costs = s.costs; keep = s.keep } };

    ghost invariant = { λ s. HasCostsAndKeepInRange (record { costs = s.costs; keep = s.keep }) };

    ghost inverse = { λ s. record { costs = s.costs; keep = s.keep } };
}

impl Sparse {
    /// The costs with the rows kept whose number `keep` divides. The faults, of which the first
    /// that holds is told: `Keep` unless `keep` is a power of two from 1 to 1,024, `KeepAboveN` if
    /// it is above N.
    pub fn new(costs: &Costs, keep: u64) -> Result<Sparse, CostFault>
        ensures sparse { IfOk result (λ s. s ≡ record { costs = costs.now; keep = keep }) }
        ensures in_range { IfOk result (λ s. HasCostsAndKeepInRange s) }
        ensures ok { OnOk result (keep_parameter_fault (record { costs = costs.now; keep = keep }) ≡ None) }
        ensures fault { IfErr result (λ fault.
            keep_parameter_fault (record { costs = costs.now; keep = keep }) ≡ Some fault) }
    {
        if !matches!(keep, 1 | 2 | 4 | 8 | 16 | 32 | 64 | 128 | 256 | 512 | 1024) {
            return Err(CostFault::Keep);
        }
        if costs.n() < keep {
            return Err(CostFault::KeepAboveN);
        }
        Ok(Sparse {
            costs: costs.tested(),
            keep,
        })
    }

    /// The costs with every row kept: S is 1.
    pub fn whole(costs: &Costs) -> Sparse
        ensures sparse { result ≡ whole costs.now }
        ensures in_range { HasCostsAndKeepInRange result }
    {
        Sparse {
            costs: costs.tested(),
            keep: 1,
        }
    }

    /// The costs.
    pub fn costs(&self) -> Costs
        ensures costs { result ≡ self.now.costs }
        ensures in_range { HasCostsAndKeepInRange self.now }
    {
        self.costs
    }

    /// S.
    pub fn keep(&self) -> u64
        ensures keep { result ≡ self.now.keep }
        ensures in_range { HasCostsAndKeepInRange self.now }
    {
        self.keep
    }

    /// The bytes of the table, 128 * r * (N / S).
    pub fn table_bytes(&self) -> u128
        ensures bytes { result ≡ sparse_table_bytes self.now }
    {
        128 * u128::from(self.costs.r()) * u128::from(self.costs.n() / self.keep)
    }

    /// The most Salsa20/8 cores of a derivation, 2 * r * p * N * (1 + S).
    pub fn cores_bound(&self) -> u128
        ensures cores { result ≡ cores_bound self.now }
    {
        2 * u128::from(self.costs.r())
            * u128::from(self.costs.p())
            * u128::from(self.costs.n())
            * (1 + u128::from(self.keep))
    }

    /// Whether the limits admit it: the table and the parts each have at most `max_bytes` bytes,
    /// else `Memory`, and there are at most `max_ops` cores, else `Work`. `Memory` is told before
    /// `Work`.
    pub fn admitted(&self, limits: &Limits) -> Result<(), CostFault>
        ensures memory { OnOk result (SparseFitsMemory self.now limits.now.max_bytes) }
        ensures work { OnOk result (cores_bound self.now ≤ limits.now.max_ops) }
        ensures ok { OnOk result (sparse_limit_fault self.now limits.now ≡ None) }
        ensures fault { IfErr result (λ fault. sparse_limit_fault self.now limits.now ≡ Some fault) }
    {
        let max_bytes = u128::from(limits.max_bytes);
        if self.table_bytes() > max_bytes || self.costs.parts_bytes() > max_bytes {
            return Err(CostFault::Memory);
        }
        if self.cores_bound() > u128::from(limits.max_ops) {
            return Err(CostFault::Work);
        }
        Ok(())
    }
}
