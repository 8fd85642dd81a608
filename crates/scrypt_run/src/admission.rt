//! The costs of a derivation, held against what a run allows.
ghost use Rattle.std.specs.Prelude.{◌≡◌, ◌≤◌, ◌^◌, Some, None, option_map, IfOk, IfErr, OnOk};
ghost use Rattle.romix.specs.Allowance.{costs_with_allowed_keep};
ghost use Rattle.encfile.specs.Front.{allowance_refusal};
ghost use Rattle.scrypt_request.specs.Refusal.{IsOfNoFailedCall};
ghost use Rattle.scrypt_run.specs.Inside.Steps.{IsNotOutOfMemory, MayPrecedeWork};
ghost use Rattle.scrypt_run.specs.Refusal.{refusal_of};
ghost use Rattle.scrypt_request.specs.Request.{HasAllowedLimits, allowance_of, task_view};
ghost use Rattle.scrypt_run.specs.Admission.{AreCostsWithinLimits};

use romix::{CostFault, Costs, Limits, Sparse};
use scrypt_request::{ScryptRefusal, Task};

/// Costs over a table of which every S-th row is kept, and the limits that admit them.
#[derive(Drop)]
pub(crate) struct Admitted {
    pub(crate) sparse: Sparse,
    pub(crate) limits: Limits,
    ghost allowed: { limits.max_bytes ≤ 2 ^ 40 },
    ghost within: { AreCostsWithinLimits sparse limits },
}

/// The costs over a table of which every S-th row is kept, if S is at most N and the limits admit
/// them; or the first refusal that holds.
pub(crate) fn admit(costs: &Costs, task: &Task<'_>) -> Result<Admitted, ScryptRefusal>
    requires allowed { HasAllowedLimits (task_view task.now) }
    ensures costs { IfOk result (λ admitted.
        admitted.sparse ≡ costs_with_allowed_keep (allowance_of (task_view task.now)) costs.now) }
    ensures limits { IfOk result (λ admitted. admitted.limits ≡ task.now.limits) }
    ensures passes { OnOk result
        (allowance_refusal costs.now (allowance_of (task_view task.now)) ≡ None) }
    ensures refused { IfErr result (λ r. option_map refusal_of
        (allowance_refusal costs.now (allowance_of (task_view task.now))) ≡ Some r) }
    ensures uncounted { IfErr result IsOfNoFailedCall }
    ensures early { IfErr result MayPrecedeWork }
    ensures not_out_of_memory { IfErr result IsNotOutOfMemory }
{
    let sparse = match Sparse::new(costs, task.keep) {
        Ok(sparse) => sparse,
        Err(CostFault::KeepAboveN) => return Err(ScryptRefusal::KeepAboveN),
        Err(_) => unreachable!(),
    };
    let limits = task.limits;
    match sparse.admitted(&limits) {
        Ok(()) => Ok(Admitted { sparse, limits }),
        Err(CostFault::Memory) => Err(ScryptRefusal::MemoryLimit),
        Err(CostFault::Work) => Err(ScryptRefusal::WorkLimit),
        Err(_) => unreachable!(),
    }
}
