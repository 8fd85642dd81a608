//! Hashes by Argon2.
ghost use Rattle.std.specs.Prelude.{◌≡◌, ◌^◌, ◌<◌, length, Ok, IfSome, IfOk, OnOk, None};
ghost use Rattle.argon.specs.Inputs.{inputs_of};
ghost use Rattle.argon.specs.Kind.{type_number};
ghost use Rattle.argon.specs.Range.{IsInRangeWithAnyPassword, admission};
ghost use Rattle.pikhsen_c.specs.Argon2.{argon2_tag, hash_status, inputs_given, kind_numbered, limits_status, parameters_of_numbers, params_status, work};
ghost use Rattle.pikhsen_c.specs.Heap.{CountsWorkOnce, HashesAtMostOnce, RequestsMemoryAtMostOnce};
ghost use Rattle.pikhsen_c.specs.Inside.Numbers.{RefusesEarly};
ghost use Rattle.pikhsen_c.specs.Inside.Settings.{hash_refusal, parameters_of};
ghost use Rattle.pikhsen_c.specs.Status.{RefusesByFirst};

use crate::call_memory::CallMemory;
use crate::machine::Machine;
use crate::status;
use crate::wiping::{Answer, wipe_stack};
use argon::{Inputs, Kind, Params, Ticks};

/// How many blocks of 1 KiB a hash may take, and how many block functions.
#[derive(Drop)]
pub(crate) struct HashLimits {
    pub max_kib: u32,
    pub max_ops: u64,
}

/// What a caller sets, and the limits.
#[derive(Drop)]
pub(crate) struct Settings {
    pub kind: u32,
    pub version: u32,
    pub passes: u32,
    pub memory_kib: u32,
    pub lanes: u32,
    pub limits: HashLimits,
}

impl Settings {
    /// The settings of these numbers.
    pub(crate) fn new(
        kind: u32,
        version: u32,
        passes: u32,
        memory_kib: u32,
        lanes: u32,
        max_kib: u32,
        max_ops: u64,
    ) -> Self
        ensures settings { result ≡ record {
          kind = kind;
          version = version;
          passes = passes;
          memory_kib = memory_kib;
          lanes = lanes;
          limits = record { max_kib = max_kib; max_ops = max_ops };
        } }
    {
        Settings {
            kind,
            version,
            passes,
            memory_kib,
            lanes,
            limits: HashLimits { max_kib, max_ops },
        }
    }
}

/// The type of a number: 0 is d, 1 is i, 2 is id.
pub(crate) fn kind_of(number: u32) -> Option<Kind>
    ensures number { IfSome result (λ kind. type_number kind ≡ number) }
    ensures kind { IfSome result (λ kind. kind ≡ kind_numbered number) }
    ensures none { result ≡ None → 2 < number }
{
    match number {
        0 => Some(Kind::D),
        1 => Some(Kind::I),
        2 => Some(Kind::Id),
        _ => None,
    }
}

// The parameters of a hash, if the type and the version are there and the others in range; or the number of the first
// fault.
fn params_of(settings: &Settings, tag_len: usize, inputs: &Inputs<'_>) -> Result<Params, u32>
    ensures parameters { IfOk result (λ params. params ≡ parameters_of settings.now tag_len inputs.now) }
    ensures in_range { IfOk result IsInRangeWithAnyPassword }
    ensures refusal { RefusesEarly (params_status (parameters_of settings.now tag_len inputs.now)) result }
{
    let Some(kind) = kind_of(settings.kind) else {
        return Err(status::KIND);
    };
    if settings.version != 0x10 && settings.version != 0x13 {
        return Err(status::ARGON2_VERSION);
    }
    match Params::with_any_password_length(
        kind,
        settings.version,
        settings.passes,
        settings.lanes,
        settings.memory_kib,
        tag_len,
        inputs.salt.len(),
        inputs.password.len(),
    ) {
        Ok(params) => Ok(params),
        Err(fault) => Err(status::param_fault_status(fault)),
    }
}

// Whether the limits admit the parameters, or the number of the first fault.
fn admitted(params: &Params, limits: &HashLimits) -> Result<(), u32>
    ensures admitted { OnOk result (admission params.now limits.now.max_kib limits.now.max_ops ≡ Ok tt) }
    ensures refusal { RefusesEarly (limits_status params.now limits.now.max_kib limits.now.max_ops) result }
{
    match params.admitted(limits.max_kib, limits.max_ops) {
        Ok(()) => Ok(()),
        Err(fault) => Err(status::param_fault_status(fault)),
    }
}

/// The parameters of a hash, if nothing refuses it before memory is asked for; or the number of the first fault.
pub(crate) fn checked_argon2_params(
    settings: &Settings,
    tag_len: usize,
    inputs: &Inputs<'_>,
) -> Result<Params, u32>
    ensures parameters { IfOk result (λ params. params ≡ parameters_of settings.now tag_len inputs.now) }
    ensures in_range { IfOk result IsInRangeWithAnyPassword }
    ensures admitted { IfOk result (λ params.
        admission params settings.now.limits.max_kib settings.now.limits.max_ops ≡ Ok tt) }
    ensures secret { OnOk result (length inputs.now.secret.now < 2 ^ 32) }
    ensures associated { OnOk result (length inputs.now.associated.now < 2 ^ 32) }
    ensures refusal { RefusesEarly (hash_refusal settings.now tag_len inputs.now) result }
{
    let params = match params_of(settings, tag_len, inputs) {
        Ok(params) => params,
        Err(status) => return Err(status),
    };
    if inputs.secret.len() > 0xFFFF_FFFF || inputs.associated.len() > 0xFFFF_FFFF {
        return Err(status::INPUT_LENGTH);
    }
    match admitted(&params, &settings.limits) {
        Ok(()) => Ok(params),
        Err(status) => Err(status),
    }
}

// The tag of these inputs, with memory from `source`: one request, for the matrix.
#[inline(never)]
fn hash_in<S: CallMemory>(
    source: &mut S,
    settings: &Settings,
    inputs: &Inputs<'_>,
    out: &mut [u8],
    ticks: &mut Ticks,
) -> u32
    ensures tag { result ≡ 0
        → out.new ≡ argon2_tag (parameters_of settings.now (length out.old) inputs.now) (inputs_of inputs.now) }
    ensures refusal { RefusesByFirst (hash_refusal settings.now (length out.old) inputs.now) result out.old out.new }
    // Nothing is asked of the source before every other refusal is ruled out, and then the matrix alone, under the
    // caller's own limits; want of memory is told where that was refused, and only there.
    ensures asked { RequestsMemoryAtMostOnce (S.after_matrix source.old (parameters_of settings.now (length out.old) inputs.now)
        settings.now.limits.max_kib settings.now.limits.max_ops) result source.old source.new }
    // No hash begins before every refusal is ruled out, and then one.
    ensures works { CountsWorkOnce (work (parameters_of settings.now (length out.old) inputs.now))
        result ticks.old ticks.new }
{
    let params = match checked_argon2_params(settings, out.len(), inputs) {
        Ok(params) => params,
        Err(status) => return status,
    };
    let limits = &settings.limits;
    let Ok(mut matrix) = source.matrix(&params, limits.max_kib, limits.max_ops) else {
        return status::OUT_OF_MEMORY;
    };
    matrix.hash(inputs, out, ticks);
    status::OK
}

/// The tag of a password, as many bytes as `out` has. What is refused is told by the first fault, before
/// memory is asked for.
#[unsafe(no_mangle)]
pub extern "C" fn pikhsen_argon2_hash(
    machine: Machine,
    kind: u32,
    version: u32,
    passes: u32,
    memory_kib: u32,
    lanes: u32,
    password: &[u8],
    salt: &[u8],
    secret: &[u8],
    associated: &[u8],
    max_kib: u32,
    max_ops: u64,
    out: &mut [u8],
) -> Answer
    ensures tag { result.status ≡ 0 → out.new ≡ argon2_tag (parameters_of_numbers kind version passes lanes memory_kib
        (length out.old) (length salt.now) (length password.now))
        (inputs_given password.now salt.now secret.now associated.now) }
    // Memory is asked for, and refused, only where nothing else is.
    ensures refusal { RefusesByFirst (hash_status (parameters_of_numbers kind version passes lanes memory_kib
        (length out.old) (length salt.now) (length password.now))
        (length secret.now) (length associated.now) max_kib max_ops) result.status out.old out.new }
    ensures machine { HashesAtMostOnce (parameters_of_numbers kind version passes lanes memory_kib
        (length out.old) (length salt.now) (length password.now)) result.status machine result.machine }
{
    let mut machine = machine;
    let settings = Settings::new(kind, version, passes, memory_kib, lanes, max_kib, max_ops);
    let inputs = Inputs {
        password,
        salt,
        secret,
        associated,
    };
    let status = hash_in(
        &mut machine.heap,
        &settings,
        &inputs,
        out,
        &mut machine.blocks,
    );
    wipe_stack(status, machine)
}
