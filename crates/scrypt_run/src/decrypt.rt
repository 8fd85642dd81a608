//! `scrypt dec`: the steps to the text of an encrypted file, once its first 96 bytes are read and their costs admitted.
ghost use Rattle.std.specs.Prelude.{◌≡◌, ◌^◌, ◌++◌, length, IfOk, IfErr, OnOk, IsTrue};
ghost use Rattle.host.specs.CallsGrantedByHost.{with_secret_asked};
ghost use Rattle.host.specs.HostState.{after_ask_secret};
ghost use Rattle.host.specs.Secret.{source_of};
ghost use Rattle.scrypt_request.specs.Request.{name_view};
ghost use Rattle.scrypt_run.specs.Inside.Decrypting.{DecryptionEnds, DecryptionHasRead, DecryptionStartRefused, ForAllRead, HasReadFrontAlone, IsOpened, ReleaseRefused, released_text_of_header_and_rest};
ghost use Rattle.scrypt_run.specs.Inside.Steps.{AreBelow, AsksMemoryOnce, AwaitsOutput, CountsFault, CountsNoEarlyWork, CountsOneDerivation, MayFollowWork, WorksOnce, first_line_of_named_source};
ghost use Rattle.scrypt_run.specs.Steps.{after_pull_and_push};

use crate::admission::Admitted;
use crate::front::Front;
use crate::passphrase::read_passphrase;
use crate::run_memory::RunMemory;
use encfile::Dec;
use host::{Host, Source, push_all};
use romix::Ticks;
use scrypt_request::ScryptRefusal;

/// Reads the passphrase, takes the memory of the derivation, and tests the passphrase against the
/// code of the header. The memory is there when the work begins.
pub(crate) fn open<R: RunMemory, H: Host>(
    memory: &mut R,
    host: &mut H,
    source: Source<'_>,
    front: Front,
    admitted: &Admitted,
    ticks: &mut Ticks,
) -> Result<Dec, ScryptRefusal>
    requires room { AreBelow (2 ^ 63) (H.faults host.old) }
    requires unasked { IsTrue (H.grants host.old).secret }
    requires costs { admitted.now.sparse.costs ≡ front.header.costs }
    ensures counts { CountsFault result (H.faults host.old) (H.faults host.new) }
    ensures granted { H.grants host.new ≡ with_secret_asked (H.grants host.old) }
    ensures asks { IsTrue H.tells →
        H.seen host.new ≡ after_ask_secret (source_of source.entry) (H.seen host.old) }
    ensures begun { IfOk result HasReadFrontAlone }
    ensures opened { IfOk result (IsOpened H.tells
        (first_line_of_named_source source.entry (H.seen host.old)) front.bytes) }
    ensures refused { IsTrue H.tells → IfErr result (λ r. DecryptionStartRefused r
        (first_line_of_named_source source.entry (H.seen host.old)) front.bytes) }
    ensures work { WorksOnce result (CountsOneDerivation H.tells
        (first_line_of_named_source source.entry (H.seen host.old)) front.header.salt
        admitted.now.sparse ticks.old ticks.new) ticks.old ticks.new }
    ensures no_work { CountsNoEarlyWork result ticks.old ticks.new }
    ensures memory { AsksMemoryOnce (R.after_workspace memory.old admitted.now.sparse) result
        memory.old memory.new }
{
    let Front { bytes, header } = front;
    let passphrase = read_passphrase(host, source)?;
    let Ok(mut workspace) = memory.workspace(&admitted.sparse, &admitted.limits) else {
        return Err(ScryptRefusal::OutOfMemory);
    };
    let opened = Dec::open(&bytes, header, passphrase.as_slice(), &mut workspace, ticks);
    // here, and so once for both outcomes
    drop(workspace);
    drop(passphrase);
    opened.map_err(|_| ScryptRefusal::WrongPassphrase)
}

// Writes the text that the rest of the input releases. All that a piece of the input releases is
// written before the next is pulled.
fn release<H: Host>(host: &mut H, dec: &mut Dec) -> Result<(), ScryptRefusal>
    requires room { AreBelow (2 ^ 63) (H.faults host.old) }
    requires readable { IsTrue (H.grants host.old).readable }
    requires writable { IsTrue (H.grants host.old).writable }
    requires begun { HasReadFrontAlone dec.old }
    ensures counts { CountsFault result (H.faults host.old) (H.faults host.new) }
    ensures read { IsTrue H.tells → OnOk result (ForAllRead (DecryptionHasRead dec.old) (λ passphrase front.
        DecryptionHasRead dec.new passphrase (front ++ (H.seen host.old).input))) }
    ensures released { IsTrue H.tells → OnOk result (ForAllRead (DecryptionHasRead dec.old) (λ passphrase front.
        H.seen host.new ≡ after_pull_and_push (released_text_of_header_and_rest passphrase front)
        (length (H.seen host.old).input) (H.seen host.old))) }
    ensures refused { IsTrue H.tells → IfErr result (λ r. ForAllRead (DecryptionHasRead dec.old) (λ passphrase front.
        ReleaseRefused r passphrase front (H.seen host.old) (H.seen host.new))) }
    ensures late { IfErr result MayFollowWork }
{
    let mut buf = [0u8; 4096];
    let mut out = [0u8; 4128];
    while let Ok(n) = host.pull(&mut buf) {
        if n == 0 {
            return Ok(());
        }
        let Ok(released) = dec.feed(&buf[..n], &mut out) else {
            return Err(ScryptRefusal::TooLong);
        };
        let Ok(()) = push_all(host, &out[..released]) else {
            return Err(ScryptRefusal::OutputFault);
        };
    }
    Err(ScryptRefusal::InputFault)
}

/// Opens the output, writes the text, and tests the final code. What was written before a refusal stays, and the
/// text can be trusted only after `Ok`.
pub(crate) fn finish<H: Host>(
    host: &mut H,
    outfile: Option<&str>,
    mut dec: Dec,
) -> Result<(), ScryptRefusal>
    requires room { AreBelow (2 ^ 63) (H.faults host.old) }
    requires awaiting { AwaitsOutput (H.grants host.old) }
    requires begun { HasReadFrontAlone dec }
    ensures counts { CountsFault result (H.faults host.old) (H.faults host.new) }
    ensures ends { IsTrue H.tells → ForAllRead (DecryptionHasRead dec) (λ passphrase front.
        DecryptionEnds result passphrase front (name_view outfile.entry)
        (H.seen host.old) (H.seen host.new)) }
    ensures late { IfErr result MayFollowWork }
{
    let Ok(()) = host.open_output(outfile) else {
        return Err(ScryptRefusal::OutputFault);
    };
    release(host, &mut dec)?;
    match dec.finish() {
        Ok(()) => Ok(()),
        Err(_) => Err(ScryptRefusal::Damaged),
    }
}
