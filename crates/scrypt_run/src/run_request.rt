//! A run for a request.
ghost use Rattle.std.specs.Prelude.{◌≡◌, ◌+◌, ◌^◌, IfErr, OnOk, IsTrue};
ghost use Rattle.host.specs.Faults.{AreBelow};
ghost use Rattle.host.specs.CallsGrantedByHost.{GrantsAllHostCalls};
ghost use Rattle.host.specs.HostState.{IsUnasked};
ghost use Rattle.scrypt_run.specs.Asking.{RequestsRunMemoryBeforeRefusal, RequestGranted};
ghost use Rattle.scrypt_request.specs.Refusal.{CountsFault, CountsNoEarlyWork};
ghost use Rattle.scrypt_request.specs.Request.{IsAllowed, scrypt_request_view};
ghost use Rattle.scrypt_run.specs.Run.{StoresWholeTable, ScryptRequestRefused, ScryptRequestSucceeds, salsa20_cores_of_request, most_salsa20_cores};
ghost use Rattle.scrypt_run.specs.Work.{EndsAfterWork, CountsRequestWork, CountsNoWorkIfRefusedEarly, CountsWorkWithin};

use crate::inspect::inspect;
use crate::run_decryption::run_decryption;
use crate::run_encryption::run_encryption;
use crate::run_memory::RunMemory;
use host::Host;
use romix::Ticks;
use scrypt_request::{Request, ScryptRefusal};

/// Does what a request asks for: all of a run but its words and the line of a refusal. Nothing is
/// opened yet, and the limit `-M` is at most 2^40 bytes.
///
/// The faults are S4a, S4b, S5b, S6 to S15 and S16b, in the order of the subcommand. Whatever was written
/// before a fault stays written, and no output is asked for before every check up to the header's
/// code has passed; `OutOfMemory` is never told after an output was asked for.
///
/// `enc` tells the first that holds, in this order: `KeepAboveN`, `MemoryLimit`, `WorkLimit`, `InputFault` where the
/// input can't be opened, `PassphraseFault`, `LongPassphrase`, `SaltFault`, `OutOfMemory`, and `OutputFault` where the
/// output can't be opened; then, as the file is written, `InputFault`, `OutputFault` and `TooLong` (2^60 bytes). What
/// `dec` writes can be trusted only after `Ok`, since the final code is tested when all of it is written.
///
/// All memory comes from `memory`, which is asked once, or not at all where a refusal comes before: by
/// `enc` and `dec` for that of one derivation with the request's S, once the limits admit it, and by
/// `info` for its line. `OutOfMemory` is told where that request was refused, and there alone.
///
/// `ticks` counts the Salsa20/8 cores: none where the words, the limits, the header, the passphrase,
/// the salt or want of memory refuse, and never more than the limit on work. A run that ends well, or
/// is refused by S10, S11, S13 or S14, or by S12 with its output opened, has counted exactly one
/// derivation, with the request's S; `info` none.
pub fn run<R: RunMemory, H: Host>(
    memory: &mut R,
    host: &mut H,
    request: &Request<'_>,
    ticks: &mut Ticks,
) -> Result<(), ScryptRefusal>
    requires room { AreBelow (2 ^ 63) (H.faults host.old) }
    requires fresh { IsTrue H.tells → IsUnasked (H.seen host.old) }
    requires granted { GrantsAllHostCalls (H.grants host.old) }
    requires allowed { IsAllowed (scrypt_request_view request.now) }
    ensures counts { CountsFault result (H.faults host.old) (H.faults host.new) }
    ensures succeeds { IsTrue H.tells → OnOk result (ScryptRequestSucceeds (scrypt_request_view request.now)
        (H.seen host.old) (H.seen host.new)) }
    ensures refused { IsTrue H.tells → IfErr result (λ r. ScryptRequestRefused r
        (scrypt_request_view request.now) (H.seen host.old) (H.seen host.new)) }
    ensures count { IsTrue H.tells → OnOk result (CountsRequestWork (scrypt_request_view request.now)
        (H.seen host.old) ticks.old ticks.new) }
    ensures worked { IsTrue H.tells → IfErr result (λ r. EndsAfterWork r (H.seen host.new)
        → CountsRequestWork (scrypt_request_view request.now) (H.seen host.old) ticks.old ticks.new) }
    ensures unworked { IsTrue H.tells → CountsNoWorkIfRefusedEarly result (H.seen host.new) ticks.old ticks.new }
    ensures work { IsTrue H.tells → StoresWholeTable (scrypt_request_view request.now) → OnOk result (ticks.new
        ≡ ticks.old + salsa20_cores_of_request (scrypt_request_view request.now) (H.seen host.old)) }
    ensures work_bound { CountsWorkWithin (most_salsa20_cores (scrypt_request_view request.now)) ticks.old ticks.new }
    ensures no_work { CountsNoEarlyWork result ticks.old ticks.new }
    ensures memory_granted { OnOk result (RequestGranted R.after_workspace R.after_line H.tells
        (H.seen host.old).input (scrypt_request_view request.now) memory.old memory.new) }
    ensures memory_asked { IfErr result (λ r. RequestsRunMemoryBeforeRefusal R.after_workspace R.after_line H.tells
        (H.seen host.old).input (scrypt_request_view request.now) r memory.old memory.new) }
{
    match request {
        Request::Encrypt(asked) => run_encryption(memory, host, asked, ticks),
        Request::Decrypt(task) => run_decryption(memory, host, task, ticks),
        Request::Inspect(infile) => inspect(memory, host, *infile),
    }
}
