//! `scrypt enc`: the steps from a text to its encrypted file, once its costs are admitted and the input is opened. The
//! file does not depend on S, which `--keep` sets.
ghost use Rattle.std.specs.Prelude.{◌≡◌, ◌^◌, true, ℕ, List, [], length, IfOk, IfErr, OnOk, IsTrue};
ghost use Rattle.romix.specs.Costs.{Parameters};
ghost use Rattle.encfile.specs.EncryptedFile.{body};
ghost use Rattle.host.specs.HostState.{KeepsOnErr};
ghost use Rattle.scrypt_request.specs.Request.{encryption_view, name_view};
ghost use Rattle.scrypt_run.specs.Inside.Encrypting.{CountsStart, EncryptionEnds, HasEncrypted, IsBegun, IsStarted, SaltRefused, StartRefused, UsesSalt};
ghost use Rattle.scrypt_run.specs.Inside.Steps.{AreBelow, AsksMemoryOnce, AwaitsOutput, AwaitsSecretAndSalt, CountsFault, EndsBeforeWork, KeepsFiles, MayFollowWork};
ghost use Rattle.scrypt_run.specs.Steps.{after_pull_and_push};
ghost use Rattle.scrypt_run.specs.Text.{RefusesDuringText};

use crate::admission::Admitted;
use crate::passphrase::read_passphrase;
use crate::run_memory::RunMemory;
use encfile::Enc;
use host::{Host, push_all};
use romix::Ticks;
use scrypt_request::{Encryption, ScryptRefusal};

// The salt that was asked for, or the host's.
fn read_salt<H: Host>(host: &mut H, salt: Option<[u8; 32]>) -> Result<[u8; 32], ScryptRefusal>
    requires room { AreBelow (2 ^ 63) (H.faults host.old) }
    requires unsalted { IsTrue (H.grants host.old).salt }
    ensures counts { CountsFault result (H.faults host.old) (H.faults host.new) }
    ensures files { KeepsFiles result (H.grants host.old) (H.grants host.new) }
    ensures salt { IsTrue H.tells → UsesSalt salt result (H.seen host.old) (H.seen host.new) }
    ensures refused { IfErr result (SaltRefused salt) }
{
    if let Some(salt) = salt {
        return Ok(salt);
    }
    let mut salt = [0u8; 32];
    host.salt(&mut salt).map_err(|_| ScryptRefusal::SaltFault)?;
    Ok(salt)
}

/// Reads the passphrase and the salt, takes the memory of the derivation, and derives the keys. Here nothing
/// is refused any more once the work begins.
pub(crate) fn start<R: RunMemory, H: Host>(
    memory: &mut R,
    host: &mut H,
    asked: &Encryption<'_>,
    admitted: &Admitted,
    ticks: &mut Ticks,
) -> Result<Enc, ScryptRefusal>
    requires room { AreBelow (2 ^ 63) (H.faults host.old) }
    requires awaiting { AwaitsSecretAndSalt (H.grants host.old) }
    requires costs { admitted.now.sparse.costs ≡ asked.now.costs }
    ensures ends { EndsBeforeWork result (H.faults host.old) (H.faults host.new) }
    ensures files { KeepsFiles result (H.grants host.old) (H.grants host.new) }
    ensures started { IfOk result (IsStarted H.tells (encryption_view asked.now)
        (H.seen host.old) (H.seen host.new)) }
    ensures refused { IsTrue H.tells → IfErr result (λ r. StartRefused r (encryption_view asked.now)
        (H.seen host.old) (H.seen host.new)) }
    ensures count { OnOk result (CountsStart H.tells (encryption_view asked.now) admitted.now.sparse
        (H.seen host.old) ticks.old ticks.new) }
    ensures no_work { KeepsOnErr result ticks.old ticks.new }
    ensures memory { AsksMemoryOnce (R.after_workspace memory.old admitted.now.sparse) result
        memory.old memory.new }
{
    let passphrase = read_passphrase(host, asked.task.source)?;
    let salt = read_salt(host, asked.salt)?;
    let Ok(mut workspace) = memory.workspace(&admitted.sparse, &admitted.limits) else {
        return Err(ScryptRefusal::OutOfMemory);
    };
    Ok(Enc::start(
        &asked.costs,
        &salt,
        passphrase.as_slice(),
        &mut workspace,
        ticks,
    ))
}

// Writes the first 96 bytes of the file, and the input's text as it is encrypted.
fn write_header_and_ciphertext<H: Host>(host: &mut H, enc: &mut Enc) -> Result<(), ScryptRefusal>
    requires room { AreBelow (2 ^ 63) (H.faults host.old) }
    requires readable { IsTrue (H.grants host.old).readable }
    requires writable { IsTrue (H.grants host.old).writable }
    requires begun { IsBegun enc.old }
    ensures counts { CountsFault result (H.faults host.old) (H.faults host.new) }
    ensures still_writable { OnOk result ((H.grants host.new).writable ≡ true) }
    ensures encrypted { IsTrue H.tells → (passphrase salt : List ℕ) (costs : Parameters)
        → HasEncrypted enc.old passphrase salt costs []
        → OnOk result (HasEncrypted enc.new passphrase salt costs (H.seen host.old).input) }
    ensures written { IsTrue H.tells → (passphrase salt : List ℕ) (costs : Parameters)
        → HasEncrypted enc.old passphrase salt costs []
        → OnOk result (H.seen host.new ≡ after_pull_and_push (body passphrase salt costs)
        (length (H.seen host.old).input) (H.seen host.old)) }
    ensures refused { IsTrue H.tells → (passphrase salt : List ℕ) (costs : Parameters)
        → HasEncrypted enc.old passphrase salt costs []
        → IfErr result (λ r. RefusesDuringText r (2 ^ 60) 4096 (body passphrase salt costs)
        (body passphrase salt costs) (H.seen host.old) (H.seen host.new)) }
    ensures late { IfErr result MayFollowWork }
{
    let Ok(()) = push_all(host, &enc.header()) else {
        return Err(ScryptRefusal::OutputFault);
    };
    let mut buf = [0u8; 4096];
    while let Ok(n) = host.pull(&mut buf) {
        if n == 0 {
            return Ok(());
        }
        let piece = &mut buf[..n];
        let Ok(()) = enc.feed(piece) else {
            return Err(ScryptRefusal::TooLong);
        };
        let Ok(()) = push_all(host, piece) else {
            return Err(ScryptRefusal::OutputFault);
        };
    }
    Err(ScryptRefusal::InputFault)
}

/// Opens the output, and writes the file of the input's text.
pub(crate) fn write_encrypted_file<H: Host>(
    host: &mut H,
    outfile: Option<&str>,
    mut enc: Enc,
) -> Result<(), ScryptRefusal>
    requires room { AreBelow (2 ^ 63) (H.faults host.old) }
    requires awaiting { AwaitsOutput (H.grants host.old) }
    requires begun { IsBegun enc }
    ensures counts { CountsFault result (H.faults host.old) (H.faults host.new) }
    ensures ends { IsTrue H.tells → (passphrase salt : List ℕ) (costs : Parameters)
        → HasEncrypted enc passphrase salt costs []
        → EncryptionEnds result passphrase salt costs (name_view outfile.entry)
        (H.seen host.old) (H.seen host.new) }
    ensures late { IfErr result MayFollowWork }
{
    let Ok(()) = host.open_output(outfile) else {
        return Err(ScryptRefusal::OutputFault);
    };
    write_header_and_ciphertext(host, &mut enc)?;
    let Ok(()) = push_all(host, &enc.finish()) else {
        return Err(ScryptRefusal::OutputFault);
    };
    Ok(())
}
