//! The passphrase of a run: the first line of its source.
ghost use Rattle.std.specs.Prelude.{◌≡◌, ◌≤◌, ◌^◌, ℕ, List, take, IfOk, IfErr, IsTrue};
ghost use Rattle.host.specs.CallsGrantedByHost.{with_secret_asked};
ghost use Rattle.host.specs.Secret.{source_of};
ghost use Rattle.host.specs.HostState.{after_ask_secret};
ghost use Rattle.scrypt_run.specs.Inside.Steps.{AreBelow, EndsBeforeWork, IsNotOutOfMemory, first_line_of_named_source};
ghost use Rattle.scrypt_run.specs.Passphrase.{HasPassphrase, PassphraseRefused};

use host::{Host, Source, first_line_length};
use scrypt_request::ScryptRefusal;
use std::marker::Model;

/// A passphrase of 0 to 2,048 bytes. Contracts see its bytes.
#[derive(Drop)]
pub(crate) struct Passphrase {
    // One byte more than a passphrase has tells that the line is too long.
    buf: [u8; 2049],
    len: usize,
}

impl Model for Passphrase {
    ghost Value = { List ℕ };

    ghost view = { λ p. take p.len p.buf };

    ghost invariant = { λ p. p.len ≤ 2048 };
}

impl Passphrase {
    /// Its bytes.
    pub(crate) fn as_slice(&self) -> &[u8]
        ensures bytes { result.now ≡ self.now }
    {
        &self.buf[..self.len]
    }
}

/// Reads the passphrase from its source. No source was asked before.
pub(crate) fn read_passphrase<H: Host>(
    host: &mut H,
    source: Source<'_>,
) -> Result<Passphrase, ScryptRefusal>
    requires room { AreBelow (2 ^ 63) (H.faults host.old) }
    requires unasked { IsTrue (H.grants host.old).secret }
    ensures ends { EndsBeforeWork result (H.faults host.old) (H.faults host.new) }
    ensures granted { H.grants host.new ≡ with_secret_asked (H.grants host.old) }
    ensures asks { IsTrue H.tells →
        H.seen host.new ≡ after_ask_secret (source_of source.entry) (H.seen host.old) }
    ensures read { IsTrue H.tells → IfOk result
        (HasPassphrase (first_line_of_named_source source.entry (H.seen host.old))) }
    ensures refused { IsTrue H.tells → IfErr result (λ r.
        PassphraseRefused r (first_line_of_named_source source.entry (H.seen host.old))) }
    ensures not_out_of_memory { IfErr result IsNotOutOfMemory }
{
    let mut buf = [0u8; 2049];
    let n = host
        .secret(source, &mut buf)
        .map_err(|_| ScryptRefusal::PassphraseFault)?;
    let len = first_line_length(&buf[..n]);
    if len > 2048 {
        return Err(ScryptRefusal::LongPassphrase);
    }
    Ok(Passphrase { buf, len })
}
