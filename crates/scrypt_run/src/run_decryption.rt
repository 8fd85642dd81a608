//! The run of `scrypt dec`: its steps, in the order of its refusals.
ghost use Rattle.std.specs.Prelude.{◌≡◌, ◌+◌, ◌^◌, IfErr, OnOk, IsTrue};
ghost use Rattle.romix.specs.Costs.{cores};
ghost use Rattle.encfile.specs.Header.{costs_of};
ghost use Rattle.host.specs.CallsGrantedByHost.{GrantsAllHostCalls};
ghost use Rattle.host.specs.HostState.{IsUnasked};
ghost use Rattle.scrypt_request.specs.Request.{HasAllowedLimits, task_view};
ghost use Rattle.scrypt_run.specs.Asking.{source_after_workspace_request};
ghost use Rattle.scrypt_run.specs.Decrypting.{DecryptRefused, DecryptSucceeds};
ghost use Rattle.scrypt_run.specs.Inside.Steps.{AreBelow, AsksHeaderMemoryOnce, CountsFault, CountsNoEarlyWork};
ghost use Rattle.scrypt_run.specs.Work.{CountsDecryptionWork, CountsNoWorkIfRefusedEarly, CountsWorkWithin, EndsAfterWork};

use crate::admission::admit;
use crate::decrypt;
use crate::front::read_front;
use crate::run_memory::RunMemory;
use host::Host;
use romix::Ticks;
use scrypt_request::{ScryptRefusal, Task};

/// Decrypts the input as it is asked for: the first 96 bytes are read, their costs admitted, the
/// passphrase is tested, and the text is written.
pub(crate) fn run_decryption<R: RunMemory, H: Host>(
    memory: &mut R,
    host: &mut H,
    task: &Task<'_>,
    ticks: &mut Ticks,
) -> Result<(), ScryptRefusal>
    requires room { AreBelow (2 ^ 63) (H.faults host.old) }
    requires fresh { IsTrue H.tells → IsUnasked (H.seen host.old) }
    requires granted { GrantsAllHostCalls (H.grants host.old) }
    requires allowed { HasAllowedLimits (task_view task.now) }
    ensures counts { CountsFault result (H.faults host.old) (H.faults host.new) }
    ensures succeeds { IsTrue H.tells → OnOk result (DecryptSucceeds (task_view task.now)
        (H.seen host.old) (H.seen host.new)) }
    ensures refused { IsTrue H.tells → IfErr result (λ r. DecryptRefused r (task_view task.now)
        (H.seen host.old) (H.seen host.new)) }
    ensures count { IsTrue H.tells → OnOk result (CountsDecryptionWork (task_view task.now)
        (H.seen host.old) ticks.old ticks.new) }
    ensures worked { IsTrue H.tells → IfErr result (λ r. EndsAfterWork r (H.seen host.new)
        → CountsDecryptionWork (task_view task.now) (H.seen host.old) ticks.old ticks.new) }
    ensures unworked { IsTrue H.tells → CountsNoWorkIfRefusedEarly result (H.seen host.new) ticks.old ticks.new }
    ensures work { IsTrue H.tells → task.now.keep ≡ 1 → OnOk result (ticks.new
        ≡ ticks.old + cores (costs_of (H.seen host.old).input)) }
    ensures work_bound { CountsWorkWithin task.now.limits.max_ops ticks.old ticks.new }
    ensures no_work { CountsNoEarlyWork result ticks.old ticks.new }
    ensures memory { AsksHeaderMemoryOnce H.tells (H.seen host.old).input (source_after_workspace_request
        R.after_workspace memory.old (task_view task.now)) result memory.old memory.new }
{
    let front = read_front(host, task.infile)?;
    let admitted = admit(front.costs(), task)?;
    let dec = decrypt::open(memory, host, task.source, front, &admitted, ticks)?;
    decrypt::finish(host, task.outfile, dec)
}
