//! Whether a password gives the tag of a value.
ghost use Rattle.std.specs.Prelude.{◌≡◌, None, true, false, nat_le, length, IfOk, IfErr};
ghost use Rattle.argon_text.specs.Verifying.{IsResultOfVerifying, IsToldFault, keyed_verify_fault, keyed_tag, parameters_of_value, RequestsMemoryLast, HashesOnce, TellsSame};
ghost use Rattle.argon_text.specs.View.{encoded_value_of_hash_view};

use crate::fault::VerifyFault;
use crate::hash_memory::HashMemory;
use crate::hash_view::HashView;
use crate::range::is_between;
use argon::{Inputs, ParamFault, Params, Ticks};
use comparison::are_same;

/// Whether the password gives the tag of the view, under its parameters, with no secret and no associated data. The
/// tags are compared over all their bytes before it decides.
///
/// `max_kib` is the greatest number of blocks of 1 KiB, and `max_ops` of block functions, that the
/// hash may take: a text from a stranger can ask for 4 TiB and for days. Both are tested before
/// memory is asked for. Where nothing else refuses, `source` is asked once, for the matrix, and `ticks` counts the
/// block functions of the one hash, and stays at any refusal. The faults, by their numbers, the first that holds: 6 where
/// the password has not 1 to 127 bytes, 7 where `max_kib` is too little, 8 where `max_ops` is, 9 where memory was refused.
pub fn verify<R: HashMemory>(
    source: &mut R,
    view: &HashView<'_>,
    password: &[u8],
    max_kib: u32,
    max_ops: u64,
    ticks: &mut Ticks,
) -> Result<bool, VerifyFault>
    ensures told { IsResultOfVerifying (encoded_value_of_hash_view view.now) password.now max_kib max_ops result }
    ensures asked { RequestsMemoryLast R.after_matrix (encoded_value_of_hash_view view.now) password.now max_kib max_ops
        result source.old source.new }
    ensures works { HashesOnce (encoded_value_of_hash_view view.now) password.now result ticks.old ticks.new }
{
    if !is_between(1, password.len() as u64, 127) {
        return Err(VerifyFault::PasswordLength);
    }
    verify_keyed(source, view, password, &[], &[], max_kib, max_ops, ticks)
}

/// Whether the password gives the tag of the view with this secret value and this associated data, as they
/// were given when it was hashed (RFC 9106, 3.1: K and X); a text holds neither, and both may be empty. The password has
/// any length that the standard allows, 0 to 2^32-1 bytes: fault 6 is told where it is longer. No limit counts its bytes,
/// and all of them are read once, so the time of a call grows with their number: a service bounds the length of what a
/// stranger sends before it calls. All else is as for `verify`, and one fault more: 12 where the secret or the data is
/// 2^32 bytes or longer, after 6 and before 7.
pub fn verify_keyed<R: HashMemory>(
    source: &mut R,
    view: &HashView<'_>,
    password: &[u8],
    secret: &[u8],
    associated: &[u8],
    max_kib: u32,
    max_ops: u64,
    ticks: &mut Ticks,
) -> Result<bool, VerifyFault>
    ensures answer { TellsSame result
        (keyed_tag (encoded_value_of_hash_view view.now) password.now secret.now associated.now) view.now.tag.now }
    // There is an answer only where the lengths and both limits are kept.
    ensures admitted { IfOk result (λ _.
        keyed_verify_fault (encoded_value_of_hash_view view.now) password.now (length secret.now) (length associated.now) max_kib max_ops
        ≡ None) }
    // What is told is the first that holds, and memory was asked for where none does.
    ensures fault { IfErr result (IsToldFault
        (keyed_verify_fault (encoded_value_of_hash_view view.now) password.now (length secret.now)
        (length associated.now) max_kib max_ops)) }
    // Nothing is asked of the source of memory before every other refusal is ruled out, and then the matrix alone, under
    // the caller's own limits; want of memory is told where that was refused.
    ensures asked { RequestsMemoryLast R.after_matrix (encoded_value_of_hash_view view.now) password.now max_kib max_ops
        result source.old source.new }
    // No block function is run before every refusal is ruled out, that of memory too, and then those of one hash.
    ensures works { HashesOnce (encoded_value_of_hash_view view.now) password.now result ticks.old ticks.new }
{
    let params = params_of_hash(view, password)?;
    if secret.len() > 0xFFFF_FFFF || associated.len() > 0xFFFF_FFFF {
        return Err(VerifyFault::InputLength);
    }
    match params.admitted(max_kib, max_ops) {
        Ok(()) => {}
        Err(ParamFault::MemoryLimit) => return Err(VerifyFault::MemoryLimit),
        Err(_) => return Err(VerifyFault::WorkLimit),
    }
    let Ok(mut matrix) = source.matrix(&params, max_kib, max_ops) else {
        return Err(VerifyFault::OutOfMemory);
    };
    let inputs = Inputs {
        password,
        salt: view.salt,
        secret,
        associated,
    };
    // the longest tag
    let mut room_for_tag = [0; 4096];
    let tag = &mut room_for_tag[..view.tag.len()];
    matrix.hash(&inputs, tag, ticks);
    Ok(are_same(tag, view.tag))
}

// The parameters of the hash. All but the password's length are in range.
fn params_of_hash(view: &HashView<'_>, password: &[u8]) -> Result<Params, VerifyFault>
    ensures parameters { IfOk result (λ params. params ≡ parameters_of_value (encoded_value_of_hash_view view.now) password.now) }
    ensures admitted { IfOk result (λ _. nat_le (length password.now) 0xFFFFFFFF ≡ true) }
    ensures fault { IfErr result (λ fault. (nat_le (length password.now) 0xFFFFFFFF ≡ false)
        × (fault ≡ VerifyFault.PasswordLength)) }
{
    match Params::with_any_password_length(
        view.kind,
        view.version,
        view.passes,
        view.lanes,
        view.memory,
        view.tag.len(),
        view.salt.len(),
        password.len(),
    ) {
        Ok(params) => Ok(params),
        Err(_) => Err(VerifyFault::PasswordLength),
    }
}
