//! The test of a password against an encoded text.
ghost use Rattle.std.specs.Prelude.{◌≡◌, ◌≢◌, []};
ghost use Rattle.argon_text.specs.Verifying.{parameters_of_value};
ghost use Rattle.argon_text.specs.View.{encoded_value_of_hash_view};
ghost use Rattle.pikhsen_c.specs.Argon2.{CountsWorkToVerify, IsVerifyNumber, work};
ghost use Rattle.pikhsen_c.specs.Heap.{CountsWorkUnlessEarly};
ghost use Rattle.pikhsen_c.specs.Inside.Settings.{IsVerdictOnText, IsVerdictOnValue, RequestsMatrixLast, RequestsReadingAndMatrix};
ghost use Rattle.pikhsen_c.specs.Status.{long_input_status, mismatch_status};
ghost use Rattle.pikhsen_c.specs.Texts.{JudgesPassword};

use crate::argon2::HashLimits;
use crate::call_memory::CallMemory;
use crate::machine::Machine;
use crate::status;
use crate::wiping::{Answer, wipe_stack};
use argon::Ticks;
use argon_text::{HashView, verify_keyed};

/// A password, and the secret value and the associated data that are hashed with it.
#[derive(Drop)]
pub(crate) struct KeyedPassword<'a> {
    pub password: &'a [u8],
    pub secret: &'a [u8],
    pub associated: &'a [u8],
}

// What the test of a password answers, by its number.
fn verify_view<S: CallMemory>(
    source: &mut S,
    view: &HashView<'_>,
    keyed: &KeyedPassword<'_>,
    limits: &HashLimits,
    ticks: &mut Ticks,
) -> u32
    ensures verdict { IsVerdictOnValue (encoded_value_of_hash_view view.now) keyed.now limits.now result }
    ensures asked { RequestsMatrixLast S.after_matrix (encoded_value_of_hash_view view.now) keyed.now limits.now
        result source.old source.new }
    // No block function is run before every refusal is ruled out, and then those of one hash.
    ensures works { CountsWorkUnlessEarly (result ≡ mismatch_status)
        (work (parameters_of_value (encoded_value_of_hash_view view.now) keyed.now.password.now)) result ticks.old ticks.new }
{
    match verify_keyed(
        source,
        view,
        keyed.password,
        keyed.secret,
        keyed.associated,
        limits.max_kib,
        limits.max_ops,
        ticks,
    ) {
        Ok(true) => status::OK,
        Ok(false) => status::MISMATCH,
        Err(fault) => status::verify_fault_status(fault),
    }
}

/// The same of a text, with memory from `source`: for what the text says, and then for the hash.
#[inline(never)]
pub(crate) fn verify_in<S: CallMemory>(
    source: &mut S,
    text: &[u8],
    keyed: &KeyedPassword<'_>,
    limits: &HashLimits,
    ticks: &mut Ticks,
) -> u32
    ensures verdict { IsVerdictOnText text.now keyed.now limits.now result }
    ensures number { IsVerifyNumber result }
    ensures asked { RequestsReadingAndMatrix S.after_reading S.after_matrix text.now keyed.now limits.now
        result source.old source.new }
    ensures works { CountsWorkToVerify text.now keyed.now.password.now limits.now.max_ops result ticks.old ticks.new }
{
    let reading = match source.read(text) {
        Ok(reading) => reading,
        Err(fault) => return status::read_fault_status(fault),
    };
    let view = reading.hash_view();
    verify_view(source, &view, keyed, limits, ticks)
}

/// Whether the password is that of an encoded text: 0 where it is, 16 where it is not. The text is refused
/// where it needs more than the limits allow, before memory is asked for the hash.
#[unsafe(no_mangle)]
pub extern "C" fn pikhsen_argon2_verify(
    machine: Machine,
    text: &[u8],
    password: &[u8],
    max_kib: u32,
    max_ops: u64,
) -> Answer
    ensures judges { JudgesPassword text.now password.now [] [] max_kib max_ops result.status machine result.machine }
    ensures no_input { result.status ≢ long_input_status }
{
    pikhsen_argon2_verify_keyed(machine, text, password, &[], &[], max_kib, max_ops)
}

/// Whether the password is that of an encoded text, with the secret value and the associated data of its hash: 0 where
/// it is, 16 where it is not. The text is refused where it needs more than the limits allow, before memory is asked for
/// the hash.
#[unsafe(no_mangle)]
pub extern "C" fn pikhsen_argon2_verify_keyed(
    machine: Machine,
    text: &[u8],
    password: &[u8],
    secret: &[u8],
    associated: &[u8],
    max_kib: u32,
    max_ops: u64,
) -> Answer
    ensures judges { JudgesPassword text.now password.now secret.now associated.now max_kib max_ops
        result.status machine result.machine }
{
    let mut machine = machine;
    let keyed = KeyedPassword {
        password,
        secret,
        associated,
    };
    let limits = HashLimits { max_kib, max_ops };
    let status = verify_in(
        &mut machine.heap,
        text,
        &keyed,
        &limits,
        &mut machine.blocks,
    );
    wipe_stack(status, machine)
}
