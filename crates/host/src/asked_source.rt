//! The secret source that a host was asked for, which a host keeps without asking for memory.
ghost use Rattle.std.specs.Prelude.{◌≡◌};
ghost use Rattle.host.specs.AskedSource.{asked_source, name_bytes};
ghost use Rattle.host.specs.Secret.{source_of};

use crate::host::Source;
use std::snapshot::Snapshot;

/// A name, of which contracts alone see all bytes: after the first there is nothing at run time.
#[derive(Drop)]
pub enum GhostName {
    /// No byte.
    End,
    /// A byte, and the rest of the name.
    Byte(u8, Snapshot<GhostName>),
}

/// A secret source, as it was asked for. Its name takes no memory, so a call can say which source it
/// asked even where it fails.
#[derive(Drop)]
pub enum AskedSource {
    /// All of standard input.
    StdinOnce,
    /// The environment variable of this name.
    Env(GhostName),
    /// The file of this name.
    File(GhostName),
}

impl GhostName {
    /// The name that is this text.
    pub fn of(text: &str) -> GhostName
        ensures bytes { name_bytes result ≡ text.now }
    {
        // from its last byte to its first
        let bytes = text.as_bytes();
        let mut name = GhostName::End;
        let mut at = bytes.len();
        while at > 0 {
            at -= 1;
            name = GhostName::Byte(bytes[at], Snapshot::of(&name));
        }
        name
    }
}

impl AskedSource {
    /// The source that is asked for.
    pub fn of(source: &Source<'_>) -> AskedSource
        ensures source { asked_source result ≡ source_of source.now }
    {
        match source {
            Source::StdinOnce => AskedSource::StdinOnce,
            Source::Env(name) => AskedSource::Env(GhostName::of(name)),
            Source::File(name) => AskedSource::File(GhostName::of(name)),
        }
    }
}
