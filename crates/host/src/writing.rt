//! Bytes and lines to a host.
ghost use Rattle.std.specs.Prelude.{◌≡◌, ◌-◌, ◌^◌, ◌⊎◌, true, None, OnOk, OnErr, IsTrue};
ghost use Rattle.host.specs.Faults.{AreBelow, with_output_failure_counted, CountsFailure, CountsNoFailure};
ghost use Rattle.host.specs.Lines.{SaysOneLine};
ghost use Rattle.host.specs.Output.{IsOutputCutShort, PushesAll, after_writing};
ghost use Rattle.host.specs.HostState.{after_ask_output};

use crate::host::{Host, HostFault};

/// Writes all of the bytes. After a fault a beginning of them has been written, not the whole.
pub fn push_all<H: Host>(host: &mut H, bytes: &[u8]) -> Result<(), HostFault>
    requires room { AreBelow (2 ^ 64 - 1) (H.faults host.old) }
    requires writable { (H.grants host.old).writable ≡ true }
    ensures pushes { PushesAll H.tells H.seen H.faults H.grants bytes.now result host.old host.new }
{
    let mut at = 0;
    while at < bytes.len() {
        at += host.push(&bytes[at..])?;
    }
    Ok(())
}

/// Opens standard output and writes all of the bytes. After a fault it was not opened, or a beginning
/// of them has been written, not the whole.
pub fn write_output<H: Host>(host: &mut H, bytes: &[u8]) -> Result<(), HostFault>
    requires room { AreBelow (2 ^ 64 - 1) (H.faults host.old) }
    requires unasked { (H.grants host.old).output ≡ true }
    ensures counts { CountsNoFailure result (H.faults host.old) (H.faults host.new) }
    ensures counted { CountsFailure with_output_failure_counted result (H.faults host.old) (H.faults host.new) }
    ensures written { IsTrue H.tells →
        OnOk result (H.seen host.new ≡ after_writing None bytes.now (H.seen host.old)) }
    ensures left { IsTrue H.tells → OnErr result ((H.seen host.new ≡ after_ask_output None (H.seen host.old))
        ⊎ IsOutputCutShort None bytes.now (H.seen host.old) (H.seen host.new)) }
{
    host.open_output(None)?;
    push_all(host, bytes)
}

/// Says the line of a refusal and gives the status of a refusal, 1. A line that cannot be said is
/// passed over.
pub fn refuse<H: Host>(host: &mut H, line: &str) -> u8
    requires room { AreBelow (2 ^ 64 - 1) (H.faults host.old) }
    ensures status { result ≡ 1 }
    ensures says { SaysOneLine H.tells line.now (H.seen host.old) (H.seen host.new)
        (H.faults host.old) (H.faults host.new) }
{
    let Ok(()) = host.say(line) else {
        return 1;
    };
    1
}
