//! Reading and writing what signals may interrupt.
ghost use Rattle.std.specs.Prelude.{◌≡◌, ◌+◌, ◌<◌, ◌≤◌, true, length, IsTrue};
ghost use Rattle.host.specs.HostState.{FitsWithin, TakesSome};
ghost use Rattle.tools.specs.Streams.{FailsByReadOrEnd, FailsByWrite, FillsBuffer, ReadsSome, WritesSome};
ghost use Rattle.tools.specs.SystemState.{IsOutputSeparate, IsBeforeSync, ReadStreamHasNotEnded};

use crate::system::{Reading, System};
use host::HostFault;
use std::io::ErrorKind;

// How often an interrupted read or write is asked again.
const INTERRUPT_RETRIES: usize = 16;

/// One read, asked again where a signal interrupts it, at most 16 times. It says how many bytes came: 0
/// only at the end. A read that fails otherwise, or is interrupted once more, is a fault, after which
/// nothing was read.
///
/// This is how a host over a system pulls from its input.
pub fn read_some<S: System>(
    system: &mut S,
    reading: Reading,
    buf: &mut [u8],
) -> Result<usize, HostFault>
    requires not_empty { 0 < length buf.old }
    requires going { IsTrue S.tells → ReadStreamHasNotEnded reading (S.state system.old) }
    ensures bound { FitsWithin result buf.old }
    ensures reads { IsTrue S.tells →
        ReadsSome S.state S.files reading result buf.new system.old system.new }
    ensures tries { IsTrue S.tells → S.tries system.new ≤ S.tries system.old + 17 }
    ensures failures { IsTrue S.tells →
        FailsByReadOrEnd S.failures reading (λ n. n ≡ 0) result system.old system.new }
{
    for _ in 0..=INTERRUPT_RETRIES {
        match system.read(reading, buf) {
            Ok(n) => return Ok(n),
            Err(e) if e.kind() == ErrorKind::Interrupted => {}
            Err(_) => return Err(HostFault),
        }
    }
    Err(HostFault)
}

/// Reads until the buffer is full or the end has come: as many bytes as there are and as fit. It says how
/// many came, and takes no more from the stream. After a fault some bytes may have been read.
///
/// This is how a host over a system reads a secret and a salt.
pub fn read_full<S: System>(
    system: &mut S,
    reading: Reading,
    buf: &mut [u8],
) -> Result<usize, HostFault>
    requires going { IsTrue S.tells → ReadStreamHasNotEnded reading (S.state system.old) }
    ensures bound { FitsWithin result buf.old }
    ensures fills { IsTrue S.tells →
        FillsBuffer S.state S.files reading result buf.new system.old system.new }
    ensures failures { IsTrue S.tells →
        FailsByReadOrEnd S.failures reading (λ n. n < length buf.old) result system.old system.new }
{
    let mut at = 0;
    while at < buf.len() {
        let n = read_some(system, reading, &mut buf[at..])?;
        if n == 0 {
            break;
        }
        at += n;
    }
    Ok(at)
}

/// One write, asked again where a signal interrupts it, at most 16 times: a beginning of the bytes, of at
/// least one where there is one. It says how many bytes were written. A write that fails otherwise, that
/// is interrupted once more, or that takes nothing where there is something, is a fault, after which
/// nothing was written.
///
/// This is how a host over a system pushes to its output.
pub fn write_some<S: System>(system: &mut S, bytes: &[u8]) -> Result<usize, HostFault>
    requires apart { IsTrue S.tells → IsOutputSeparate (S.files system.old) }
    requires new { IsTrue S.tells → (S.state system.old).is_new ≡ true }
    requires unsynced { IsTrue S.tells → IsBeforeSync (S.state system.old) }
    ensures bound { FitsWithin result bytes.now }
    ensures progress { TakesSome result bytes.now }
    ensures writes { IsTrue S.tells →
        WritesSome S.state S.files bytes.now result system.old system.new }
    ensures tries { IsTrue S.tells → S.tries system.new ≤ S.tries system.old + 17 }
    ensures failures { IsTrue S.tells → FailsByWrite S.failures result system.old system.new }
{
    if bytes.is_empty() {
        return Ok(0);
    }
    for _ in 0..=INTERRUPT_RETRIES {
        match system.write(bytes) {
            Ok(0) => return Err(HostFault),
            Ok(written) => return Ok(written),
            Err(e) if e.kind() == ErrorKind::Interrupted => {}
            Err(_) => return Err(HostFault),
        }
    }
    Err(HostFault)
}
