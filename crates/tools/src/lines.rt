//! What is said: a line that goes into no file that is read.
ghost use Rattle.std.specs.Prelude.{◌≡◌, ◌<◌, [], OnErr, OnOk, IsTrue};
ghost use Rattle.tools.specs.Failures.{AreNoFewer};
ghost use Rattle.tools.specs.SystemState.{HasSeparateErrorStream, IsLineAskedUnlessReading, MayAskForLine, after_line};

use crate::identity::IdentitiesOfFilesRead;
use crate::system::{StreamRole, System};
use host::HostFault;

/// Says a line, if standard error is none of the files that are read: else it would stand after what they
/// hold, or over it. Then it is a fault, and so is a call of the system that fails. Which file standard error is, is
/// asked only where the input or the secret's source is a regular file or a block device; so as long as neither is
/// opened, the system is always asked to say the line.
///
/// This is how a host over a system says its line: once.
pub fn say_if_stderr_is_separate<S: System>(system: &mut S, line: &str) -> Result<(), HostFault>
    requires once { IsTrue S.tells → (S.state system.old).said ≡ [] }
    ensures kept { IsTrue S.tells → OnErr result (MayAskForLine (S.state system.old) (S.state system.new)) }
    ensures asks { IsTrue S.tells → IsLineAskedUnlessReading (S.state system.new) }
    ensures said { IsTrue S.tells →
        OnOk result (S.state system.new ≡ after_line line.now (S.state system.old)) }
    ensures same_files { IsTrue S.tells → S.files system.new ≡ S.files system.old }
    ensures no_fewer { IsTrue S.tells → AreNoFewer (S.failures system.old) (S.failures system.new) }
    ensures failed { IsTrue S.tells → OnErr result (HasSeparateErrorStream (S.files system.new) →
        (S.failures system.old).lines < (S.failures system.new).lines) }
{
    let read = IdentitiesOfFilesRead {
        input: system.file(StreamRole::Input)?,
        secret: system.file(StreamRole::Secret)?,
    };
    let reads_a_file = read.input.is_some() || read.secret.is_some();
    if reads_a_file && read.includes(system.file(StreamRole::Error)?) {
        return Err(HostFault);
    }
    system.line(line)
}
