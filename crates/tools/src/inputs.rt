//! What is read from its beginning: secrets and salts.
ghost use Rattle.std.specs.Prelude.{IsTrue};
ghost use Rattle.host.specs.Secret.{source_of};
ghost use Rattle.host.specs.HostState.{FitsWithin};
ghost use Rattle.tools.specs.Streams.{FailsByRead, ReadsSalt, ReadsSecret};
ghost use Rattle.tools.specs.SystemState.{LeavesAllBut, IsBeforeOutput, IsNotYetOpened};
ghost use Rattle.tools.specs.declared.system.Reading.TheVariants as reading;

use crate::streams::read_full;
use crate::system::{Reading, System};
use host::{HostFault, Source};

/// The first bytes of a secret source: all of them, or as many as fit, in however many pieces they come;
/// and how many they are; it takes no more of them. A source that is not there, that cannot be opened or
/// that fails at a read is a fault, after which some bytes may have been read. For a variable nothing of the
/// system changes.
///
/// This is how a host over a system reads its secret: once, and before an output is asked for.
pub fn read_secret<S: System>(
    system: &mut S,
    source: Source<'_>,
    buf: &mut [u8],
) -> Result<usize, HostFault>
    requires once { IsTrue S.tells → IsNotYetOpened reading.Secret (S.state system.old) }
    requires early { IsTrue S.tells → IsBeforeOutput (S.state system.old) }
    ensures bound { FitsWithin result buf.old }
    ensures kept { IsTrue S.tells →
        LeavesAllBut reading.Secret (S.state system.old) (S.state system.new) }
    ensures reads { IsTrue S.tells →
        ReadsSecret (source_of source.entry) result buf.new (S.state system.old) (S.state system.new) }
    ensures failures { IsTrue S.tells → FailsByRead S.failures reading.Secret result system.old system.new }
{
    match source {
        Source::StdinOnce => {
            system.open(Reading::Secret, None)?;
            read_full(system, Reading::Secret, buf)
        }
        Source::Env(name) => system.variable(name, buf),
        Source::File(name) => {
            system.open(Reading::Secret, Some(name))?;
            read_full(system, Reading::Secret, buf)
        }
    }
}

/// A salt of random bytes: the first 32 of `/dev/urandom`. A source that cannot be opened, that fails at a
/// read or that ends before 32 of them is a fault.
///
/// This is how a host over a system takes its salt: once, and before an output is asked for.
pub fn read_salt<S: System>(system: &mut S, out: &mut [u8; 32]) -> Result<(), HostFault>
    requires once { IsTrue S.tells → IsNotYetOpened reading.Random (S.state system.old) }
    requires early { IsTrue S.tells → IsBeforeOutput (S.state system.old) }
    ensures reads { IsTrue S.tells →
        ReadsSalt result out.new (S.state system.old) (S.state system.new) }
    ensures failures { IsTrue S.tells → FailsByRead S.failures reading.Random result system.old system.new }
{
    system.open(Reading::Random, Some("/dev/urandom"))?;
    if read_full(system, Reading::Random, out)? == out.len() {
        Ok(())
    } else {
        Err(HostFault)
    }
}
