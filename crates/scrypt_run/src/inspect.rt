//! `scrypt info`: the costs of a file, told without a passphrase.
ghost use Rattle.std.specs.Prelude.{◌^◌, IfErr, OnOk, IsTrue};
ghost use Rattle.host.specs.CallsGrantedByHost.{GrantsAllHostCalls};
ghost use Rattle.scrypt_run.specs.Inside.Steps.{AreBelow, AsksHeaderMemoryOnce, CountsFault};
ghost use Rattle.scrypt_run.specs.Inspecting.{InspectRefused, InspectSucceeds};
ghost use Rattle.scrypt_request.specs.Request.{name_view};

use crate::front::read_front;
use crate::run_memory::RunMemory;
use host::{Host, write_output};
use scrypt_request::ScryptRefusal;

/// Writes a line with the costs of the input of this name to standard output, which is opened once the
/// header was read and the line stands in memory.
pub(crate) fn inspect<R: RunMemory, H: Host>(
    memory: &mut R,
    host: &mut H,
    infile: Option<&str>,
) -> Result<(), ScryptRefusal>
    requires room { AreBelow (2 ^ 63) (H.faults host.old) }
    requires granted { GrantsAllHostCalls (H.grants host.old) }
    ensures counts { CountsFault result (H.faults host.old) (H.faults host.new) }
    ensures succeeds { IsTrue H.tells → OnOk result
        (InspectSucceeds (name_view infile.entry) (H.seen host.old) (H.seen host.new)) }
    ensures refused { IsTrue H.tells → IfErr result (λ r.
        InspectRefused r (name_view infile.entry) (H.seen host.old) (H.seen host.new)) }
    ensures memory { AsksHeaderMemoryOnce H.tells (H.seen host.old).input (R.after_line memory.old)
        result memory.old memory.new }
{
    let front = read_front(host, infile)?;
    let Ok(line) = memory.line(front.costs()) else {
        return Err(ScryptRefusal::OutOfMemory);
    };
    write_output(host, line.as_bytes()).map_err(|_| ScryptRefusal::OutputFault)
}
