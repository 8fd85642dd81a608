//! The password, which is the whole standard input, and its test.
ghost use Rattle.std.specs.Prelude.{◌≡◌, ◌^◌, true, None, IfOk, IfErr, IsTrue};
ghost use Rattle.argon_text.specs.View.{value_of};
ghost use Rattle.host.specs.Faults.{AreBelow};
ghost use Rattle.host.specs.HostState.{after_ask_secret, stdin_once};
ghost use Rattle.argon2_verify.specs.Hash.{limits_refusal};
ghost use Rattle.argon2_verify.specs.Inside.Steps.{TestsPassword};
ghost use Rattle.argon2_verify.specs.Memory.{IsLeftWithHash};
ghost use Rattle.argon2_verify.specs.Reading.{IsPasswordRefused};
ghost use Rattle.argon2_verify.specs.Refusal.{CountsFault};

use crate::refusal::VerifyRefusal;
use crate::request::Limits;
use argon::Ticks;
use argon_text::{Encoded, HashMemory, HashView, verify_keyed};
use host::{Host, Source};

/// Reads the password, and tests whether it gives the tag of the hash, which the limits admit. No source was asked
/// before.
pub(crate) fn test_password<R: HashMemory, H: Host>(
    memory: &mut R,
    host: &mut H,
    hash: &Encoded,
    limits: &Limits,
    ticks: &mut Ticks,
) -> Result<bool, VerifyRefusal>
    requires room { AreBelow (2 ^ 63) (H.faults host.old) }
    requires unasked { (H.grants host.old).secret ≡ true }
    requires admitted { limits_refusal limits.now (value_of hash.now) ≡ None }
    ensures counts { CountsFault result (H.faults host.old) (H.faults host.new) }
    ensures asks { IsTrue H.tells → H.seen host.new ≡ after_ask_secret stdin_once (H.seen host.old) }
    ensures tests { IfOk result (λ same. TestsPassword R.after_matrix H.tells (value_of hash.now) limits.now same
        (H.seen host.old) ticks.old ticks.new memory.old memory.new) }
    ensures refused { IsTrue H.tells → IfErr result (IsPasswordRefused (H.seen host.old).stdin) }
    ensures memory { IfErr result (λ r. IsLeftWithHash R.after_matrix (value_of hash.now) limits.now r memory.old memory.new) }
    ensures no_work { IfErr result (λ _. ticks.new ≡ ticks.old) }
{
    // One byte more than a password may have tells that it is too long.
    let mut buf = [0u8; 4097];
    let Ok(len) = host.secret(Source::StdinOnce, &mut buf) else {
        return Err(VerifyRefusal::PasswordFault);
    };
    if len > 4096 {
        return Err(VerifyRefusal::LongPassword);
    }
    let view = HashView::of(hash);
    match verify_keyed(
        memory,
        &view,
        &buf[..len],
        &[],
        &[],
        limits.max_kib,
        limits.max_ops,
        ticks,
    ) {
        Ok(same) => Ok(same),
        // The limits admit the hash, and each length fits: no other fault is left.
        Err(_) => Err(VerifyRefusal::OutOfMemory),
    }
}
