//! The run of `scrypt enc`: its steps, in the order of its refusals.
ghost use Rattle.std.specs.Prelude.{◌≡◌, ◌+◌, ◌^◌, IfErr, OnOk, IsTrue};
ghost use Rattle.romix.specs.Costs.{cores};
ghost use Rattle.host.specs.CallsGrantedByHost.{GrantsAllHostCalls};
ghost use Rattle.host.specs.HostState.{IsUnasked};
ghost use Rattle.scrypt_request.specs.Request.{HasAllowedLimits, encryption_view};
ghost use Rattle.scrypt_run.specs.Asking.{source_after_workspace_request};
ghost use Rattle.scrypt_run.specs.Encrypting.{EncryptRefused, EncryptSucceeds};
ghost use Rattle.scrypt_run.specs.Inside.Steps.{AreBelow, AsksMemoryOnce, CountsFault, CountsNoEarlyWork};
ghost use Rattle.scrypt_run.specs.Work.{CountsEncryptionWork, CountsNoWorkIfRefusedEarly, CountsWorkWithin, EndsAfterWork};

use crate::admission::admit;
use crate::encrypt;
use crate::run_memory::RunMemory;
use host::Host;
use romix::Ticks;
use scrypt_request::{Encryption, ScryptRefusal};

/// Encrypts the input as it is asked for: the costs are admitted, the input is opened, the keys are
/// derived, and the file is written.
pub(crate) fn run_encryption<R: RunMemory, H: Host>(
    memory: &mut R,
    host: &mut H,
    asked: &Encryption<'_>,
    ticks: &mut Ticks,
) -> Result<(), ScryptRefusal>
    requires room { AreBelow (2 ^ 63) (H.faults host.old) }
    requires fresh { IsTrue H.tells → IsUnasked (H.seen host.old) }
    requires granted { GrantsAllHostCalls (H.grants host.old) }
    requires allowed { HasAllowedLimits (encryption_view asked.now).task }
    ensures counts { CountsFault result (H.faults host.old) (H.faults host.new) }
    ensures succeeds { IsTrue H.tells → OnOk result (EncryptSucceeds (encryption_view asked.now)
        (H.seen host.old) (H.seen host.new)) }
    ensures refused { IsTrue H.tells → IfErr result (λ r. EncryptRefused r (encryption_view asked.now)
        (H.seen host.old) (H.seen host.new)) }
    ensures count { IsTrue H.tells → OnOk result (CountsEncryptionWork (encryption_view asked.now)
        (H.seen host.old) ticks.old ticks.new) }
    ensures worked { IsTrue H.tells → IfErr result (λ r. EndsAfterWork r (H.seen host.new)
        → CountsEncryptionWork (encryption_view asked.now) (H.seen host.old) ticks.old ticks.new) }
    ensures unworked { IsTrue H.tells → CountsNoWorkIfRefusedEarly result (H.seen host.new) ticks.old ticks.new }
    ensures work { asked.now.task.keep ≡ 1 → OnOk result (ticks.new ≡ ticks.old + cores asked.now.costs) }
    ensures work_bound { CountsWorkWithin asked.now.task.limits.max_ops ticks.old ticks.new }
    ensures no_work { CountsNoEarlyWork result ticks.old ticks.new }
    ensures memory { AsksMemoryOnce (source_after_workspace_request R.after_workspace memory.old
        (encryption_view asked.now).task asked.now.costs) result memory.old memory.new }
{
    let admitted = admit(&asked.costs, &asked.task)?;
    let Ok(()) = host.open_input(asked.task.infile) else {
        return Err(ScryptRefusal::InputFault);
    };
    let enc = encrypt::start(memory, host, asked, &admitted, ticks)?;
    encrypt::write_encrypted_file(host, asked.task.outfile, enc)
}
