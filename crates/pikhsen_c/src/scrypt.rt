//! Keys by scrypt.
ghost use Rattle.std.specs.Prelude.{◌≡◌, ◌≤◌, ◌^◌, length, IfOk, IfErr};
ghost use Rattle.romix.specs.Scrypt.{scrypt};
ghost use Rattle.romix.specs.SparseCosts.{SparseFitsMemory};
ghost use Rattle.pikhsen_c.specs.Heap.{CountsWorkOnce, DerivesAtMostOnce};
ghost use Rattle.pikhsen_c.specs.Inside.Numbers.{RefusesEarly, RefusesEarlyOrMemory, status_of_result};
ghost use Rattle.pikhsen_c.specs.Inside.Settings.{RequestsWorkspaceAtMostOnce, costs_of_settings, derivation_refusal, limits_refusal, salsa20_cores_of_settings};
ghost use Rattle.pikhsen_c.specs.Scrypt.{costs_of_numbers, costs_status, scrypt_status, costs_with_keep, salsa20_cores_of_numbers};
ghost use Rattle.pikhsen_c.specs.Status.{RefusesByFirst};

use crate::call_memory::CallMemory;
use crate::machine::Machine;
use crate::status;
use crate::wiping::{Answer, wipe_stack};
use romix::{Costs, Limits, Sparse, Ticks, Workspace};

// No more bytes are asked for, whatever the limit of a caller.
const MOST_BYTES: u64 = 1 << 40;

/// Which rows of the table are kept, and what may be taken.
#[derive(Drop)]
pub(crate) struct ScryptLimits {
    pub keep: u32,
    pub max_bytes: u64,
    pub max_ops: u64,
}

/// What a caller sets, and the limits.
#[derive(Drop)]
pub(crate) struct ScryptCostsAndLimits {
    pub log_n: u32,
    pub r: u32,
    pub p: u32,
    pub limits: ScryptLimits,
}

impl ScryptLimits {
    /// The limits of these numbers.
    pub(crate) fn new(keep: u32, max_bytes: u64, max_ops: u64) -> Self
        ensures limits { result ≡ record { keep = keep; max_bytes = max_bytes; max_ops = max_ops } }
    {
        ScryptLimits {
            keep,
            max_bytes,
            max_ops,
        }
    }
}

impl ScryptCostsAndLimits {
    /// The settings of these numbers.
    pub(crate) fn new(log_n: u32, r: u32, p: u32, keep: u32, max_bytes: u64, max_ops: u64) -> Self
        ensures settings { result ≡ record {
          log_n = log_n;
          r = r;
          p = p;
          limits = record { keep = keep; max_bytes = max_bytes; max_ops = max_ops };
        } }
    {
        ScryptCostsAndLimits {
            log_n,
            r,
            p,
            limits: ScryptLimits::new(keep, max_bytes, max_ops),
        }
    }
}

/// The costs of these numbers, or the number of the first fault.
pub(crate) fn costs_of(log_n: u32, r: u32, p: u32) -> Result<Costs, u32>
    ensures costs { IfOk result (λ costs. costs ≡ costs_of_numbers log_n r p) }
    ensures refusal { RefusesEarly (costs_status (costs_of_numbers log_n r p)) result }
{
    if log_n > 63 {
        return Err(status::cost_fault_status(romix::CostFault::LogN));
    }
    match Costs::new(log_n as u8, r, p) {
        Ok(costs) => Ok(costs),
        Err(fault) => Err(status::cost_fault_status(fault)),
    }
}

/// The costs with the rows kept whose number `keep` divides, where `keep` may be and the limits admit it; or
/// the number of the first fault.
pub(crate) fn admitted(costs: &Costs, limits: &ScryptLimits) -> Result<Sparse, u32>
    ensures sparse { IfOk result (λ sparse. sparse ≡ costs_with_keep costs.now limits.now.keep) }
    ensures fits { IfOk result (λ sparse. SparseFitsMemory sparse (2 ^ 40)) }
    ensures refusal { RefusesEarly (limits_refusal limits.now costs.now) result }
    ensures below { IfErr result (λ status. status ≤ 21) }
{
    let sparse = match Sparse::new(costs, u64::from(limits.keep)) {
        Ok(sparse) => sparse,
        Err(fault) => return Err(status::cost_fault_status(fault)),
    };
    let most = Limits {
        max_bytes: limits.max_bytes.min(MOST_BYTES),
        max_ops: limits.max_ops,
    };
    match sparse.admitted(&most) {
        Ok(()) => Ok(sparse),
        Err(fault) => Err(status::cost_fault_status(fault)),
    }
}

/// Takes the memory of a derivation that the limits admit; or the number of what it is refused for.
pub(crate) fn workspace<S: CallMemory>(
    source: &mut S,
    costs: &Costs,
    limits: &ScryptLimits,
) -> Result<Workspace, u32>
    ensures sparse { IfOk result (λ workspace. workspace.sparse ≡ costs_with_keep costs.now limits.now.keep) }
    ensures costs { IfOk result (λ workspace. workspace.sparse.costs ≡ costs.now) }
    ensures refusal { RefusesEarlyOrMemory (limits_refusal limits.now costs.now) result }
    ensures below { IfErr result (λ status. status ≤ 21) }
    ensures asked { RequestsWorkspaceAtMostOnce S.after_workspace limits.now costs.now (status_of_result result)
        source.old source.new }
{
    let sparse = admitted(costs, limits)?;
    match source.workspace(&sparse, limits.max_bytes, limits.max_ops) {
        Ok(workspace) => Ok(workspace),
        Err(_) => Err(status::OUT_OF_MEMORY),
    }
}

// The key of a password, with memory from `source`: one request.
#[inline(never)]
fn derive_in<S: CallMemory>(
    source: &mut S,
    settings: &ScryptCostsAndLimits,
    password: &[u8],
    salt: &[u8],
    out: &mut [u8],
    ticks: &mut Ticks,
) -> u32
    ensures key { result ≡ 0 → out.new
        ≡ scrypt password.now salt.now (2 ^ settings.now.log_n) settings.now.r settings.now.p (length out.old) }
    ensures refusal { RefusesByFirst (derivation_refusal settings.now (length out.old)) result out.old out.new }
    ensures asked { RequestsWorkspaceAtMostOnce S.after_workspace settings.now.limits (costs_of_settings settings.now)
        result source.old source.new }
    // No derivation begins before every refusal is ruled out, and then one.
    ensures works { CountsWorkOnce (salsa20_cores_of_settings settings.now password.now salt.now) result ticks.old ticks.new }
{
    let costs = match costs_of(settings.log_n, settings.r, settings.p) {
        Ok(costs) => costs,
        Err(status) => return status,
    };
    if out.len() > 32 * 0xFFFF_FFFF {
        return status::BUFFER;
    }
    match workspace(source, &costs, &settings.limits) {
        Ok(mut workspace) => {
            workspace.derive(password, salt, out, ticks);
            status::OK
        }
        Err(status) => status,
    }
}

/// The key of a password, as many bytes as `out` has. What is refused is told by the first fault, before
/// memory is asked for. With `keep` above 1 every so many rows of the table are kept, and the others are
/// made again: the key is the same.
#[unsafe(no_mangle)]
pub extern "C" fn pikhsen_scrypt(
    machine: Machine,
    password: &[u8],
    salt: &[u8],
    log_n: u32,
    r: u32,
    p: u32,
    keep: u32,
    max_bytes: u64,
    max_ops: u64,
    out: &mut [u8],
) -> Answer
    ensures key { result.status ≡ 0 → out.new ≡ scrypt password.now salt.now (2 ^ log_n) r p (length out.old) }
    // Memory is asked for, and refused, only where nothing else is.
    ensures refusal { RefusesByFirst (scrypt_status (costs_of_numbers log_n r p) keep max_bytes max_ops (length out.old))
        result.status out.old out.new }
    ensures machine { DerivesAtMostOnce (salsa20_cores_of_numbers password.now salt.now log_n r p keep) result.status
        machine result.machine }
{
    let mut machine = machine;
    let settings = ScryptCostsAndLimits::new(log_n, r, p, keep, max_bytes, max_ops);
    let status = derive_in(
        &mut machine.heap,
        &settings,
        password,
        salt,
        out,
        &mut machine.cores,
    );
    wipe_stack(status, machine)
}
