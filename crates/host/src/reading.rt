//! Bytes from a host, and the first line of bytes.
ghost use Rattle.std.specs.Prelude.{◌≡◌, ◌-◌, ◌≤◌, ◌^◌, true, take, length, IsTrue};
ghost use Rattle.host.specs.Faults.{AreBelow};
ghost use Rattle.host.specs.FirstLine.{first_line, is_line_end};
ghost use Rattle.host.specs.HostState.{FitsWithin};
ghost use Rattle.host.specs.Input.{CountsPulls, FillsFromInput};

use crate::host::{Host, HostFault};

/// Fills the buffer with the next bytes of the input, however pulls are cut, and says how many: fewer than it has
/// only where the input ended. After a fault fewer were pulled, which are gone from the input.
pub fn pull_full<H: Host>(host: &mut H, buf: &mut [u8]) -> Result<usize, HostFault>
    requires room { AreBelow (2 ^ 64 - 1) (H.faults host.old) }
    requires readable { (H.grants host.old).readable ≡ true }
    ensures bound { FitsWithin result buf.old }
    ensures fills { IsTrue H.tells → FillsFromInput H.seen result buf.old buf.new host.old host.new }
    ensures counts { CountsPulls H.faults H.grants buf.old result host.old host.new }
{
    let mut at = 0;
    while at < buf.len() {
        let n = host.pull(&mut buf[at..])?;
        if n == 0 {
            return Ok(at);
        }
        at += n;
    }
    Ok(at)
}

/// Whether a byte ends a line: LF or CR.
pub fn is_line_end(byte: u8) -> bool
    ensures end { result ≡ is_line_end byte }
{
    byte == b'\n' || byte == b'\r'
}

/// The length of the first line, without its end: of the bytes before the first LF or CR, or of all.
pub fn first_line_length(bytes: &[u8]) -> usize
    ensures within { result ≤ length bytes.now }
    ensures line { take result bytes.now ≡ first_line bytes.now }
{
    bytes
        .iter()
        .position(|byte| is_line_end(*byte))
        .unwrap_or(bytes.len())
}
