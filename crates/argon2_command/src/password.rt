//! The password: the whole standard input.
ghost use Rattle.std.specs.Prelude.{◌≡◌, ◌<◌, ◌^◌, ◌⊎◌, ℕ, List, true, Some, Ok, Err, take, length, IfOk, IfErr, IsTrue};
ghost use Rattle.host.specs.Faults.{AreBelow};
ghost use Rattle.host.specs.CallsGrantedByHost.{with_secret_asked};
ghost use Rattle.host.specs.HostState.{after_ask_secret, stdin_once};
ghost use Rattle.argon2_command.specs.Output.{RefusesInput, password_in};
ghost use Rattle.argon2_words.specs.Refusal.{IsBeforeMemoryAndOutput, CountsFault};
ghost use Rattle.argon2_words.specs.declared.refusal.Argon2Refusal.TheVariants.{PasswordFault};

use argon2_words::Argon2Refusal;
use host::{Host, Source};
use std::marker::Model;

/// A password of 1 to 127 bytes. Contracts see its bytes.
#[derive(Drop)]
pub struct Password {
    // One byte more than a password has tells that the input is too long.
    buf: [u8; 128],
    len: usize,
}

impl Model for Password {
    ghost Value = { List ℕ };

    ghost view = { λ p. take p.len p.buf };

    ghost invariant = { λ p. (0 < p.len) × (p.len < 128) };
}

impl Password {
    /// Its bytes.
    pub fn as_slice(&self) -> &[u8]
        ensures bytes { result.now ≡ self.now }
        ensures not_empty { 0 < length self.now }
        ensures short { length self.now < 128 }
    {
        &self.buf[..self.len]
    }
}

/// Reads the password. No source was asked before.
pub fn read_password<H: Host>(host: &mut H) -> Result<Password, Argon2Refusal>
    requires room { AreBelow (2 ^ 63) (H.faults host.old) }
    requires unasked { (H.grants host.old).secret ≡ true }
    ensures counts { CountsFault result (H.faults host.old) (H.faults host.new) }
    ensures early { IfErr result IsBeforeMemoryAndOutput }
    // of every host, also one that tells nothing
    ensures valid { IfOk result (λ p. password_in (Some p) ≡ Ok p) }
    ensures some_input { IfErr result RefusesInput }
    ensures granted { H.grants host.new ≡ with_secret_asked (H.grants host.old) }
    ensures asks { IsTrue H.tells → H.seen host.new ≡ after_ask_secret stdin_once (H.seen host.old) }
    ensures read { IsTrue H.tells → IfOk result (λ p. password_in (H.seen host.old).stdin ≡ Ok p) }
    ensures refused { IsTrue H.tells →
        IfErr result (λ r. (password_in (H.seen host.old).stdin ≡ Err r) ⊎ (r ≡ PasswordFault)) }
{
    let mut buf = [0u8; 128];
    let Ok(len) = host.secret(Source::StdinOnce, &mut buf) else {
        return Err(Argon2Refusal::PasswordFault);
    };
    match len {
        0 => Err(Argon2Refusal::EmptyPassword),
        1..128 => Ok(Password { buf, len }),
        _ => Err(Argon2Refusal::LongPassword),
    }
}
