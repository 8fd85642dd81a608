//! What is written: an output that is no file that is read.
ghost use Rattle.std.specs.Prelude.{◌≡◌, ◌<◌, false, true, option_map, IfOk, OnOk, OnErr, IsTrue};
ghost use Rattle.host.specs.HostState.{KeepsOnErr};
ghost use Rattle.tools.specs.Failures.{AreNoFewer};
ghost use Rattle.tools.specs.SystemState.{AsksOutput, IsOutputSeparate, IsBeforeOutput, IsBeforeSync};

use crate::identity::IdentitiesOfFilesRead;
use crate::system::{StreamRole, System};
use host::HostFault;

/// Opens an output, and says whether it is kept: a regular file, which is emptied, or a block device, that was
/// opened by its name. One of the files that are read is a fault, and holds what it held. Which files they
/// are is asked once the output is opened, since that can copy a file. A call of the system that fails is a
/// fault, too.
///
/// This is how a host over a system opens its output: once.
pub fn open_apart<S: System>(system: &mut S, name: Option<&str>) -> Result<bool, HostFault>
    requires once { IsTrue S.tells → IsBeforeOutput (S.state system.old) }
    requires unsynced { IsTrue S.tells → IsBeforeSync (S.state system.old) }
    ensures asks { IsTrue S.tells → AsksOutput (option_map (λ n. n.now) name.entry)
        (S.state system.old) (S.state system.new) }
    ensures untouched { IsTrue S.tells →
        KeepsOnErr result (S.state system.old).is_emptied (S.state system.new).is_emptied }
    ensures new { IsTrue S.tells → OnOk result ((S.state system.new).is_new ≡ true) }
    ensures apart { IsTrue S.tells → OnOk result (IsOutputSeparate (S.files system.new)) }
    ensures kept { IsTrue S.tells → IfOk result (λ is_kept. (S.state system.new).is_kept ≡ is_kept) }
    ensures no_fewer { IsTrue S.tells → AreNoFewer (S.failures system.old) (S.failures system.new) }
    ensures failed { IsTrue S.tells → OnErr result (IsOutputSeparate (S.files system.new) →
        (S.failures system.old).output < (S.failures system.new).output) }
{
    system.open_output(name)?;
    let Some(output) = system.file(StreamRole::Output)? else {
        return Ok(false);
    };
    let read = IdentitiesOfFilesRead {
        input: system.file(StreamRole::Input)?,
        secret: system.file(StreamRole::Secret)?,
    };
    if read.includes(Some(output)) {
        return Err(HostFault);
    }
    if name.is_none() {
        return Ok(false);
    }
    if output.is_regular() {
        system.empty()?;
    }
    Ok(true)
}
