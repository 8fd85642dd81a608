//! What stands in a system in memory, and under which names.
ghost use Rattle.std.specs.Prelude.{◌≡◌, option_map, string_bytes, bytes_eq};
ghost use Rattle.host.specs.Entries.{Entry, lookup};

use std::marker::Model;
use tools::FileIdentity;

/// Which file something is, if it is one. In a file system of layers it can be another from when
/// an output is opened.
#[derive(Clone, Copy, Debug, PartialEq, Eq)]
pub struct Identities {
    /// Until an output is opened.
    pub before: Option<FileIdentity>,
    /// From then on.
    pub after: Option<FileIdentity>,
}

impl Identities {
    /// No file, but a pipe or a terminal.
    pub const NONE: Identities = Identities {
        before: None,
        after: None,
    };

    /// The same file throughout.
    pub fn of(file: FileIdentity) -> Identities {
        Identities {
            before: Some(file),
            after: Some(file),
        }
    }
}

/// What is read from its beginning: bytes, and which file they stand in. Contracts see the bytes.
#[derive(Drop)]
pub struct Contents {
    bytes: Vec<u8>,
    identities: Identities,
}

impl Model for Contents {
    ghost use Rattle.std.specs.Prelude.{List, ℕ};

    ghost Value = { List ℕ };

    ghost view = { λ c. c.bytes.items };
}

impl Contents {
    /// These bytes, in this file.
    pub fn new(bytes: Vec<u8>, identities: Identities) -> Contents
        ensures bytes { result ≡ bytes.items }
    {
        Contents { bytes, identities }
    }

    /// The bytes.
    pub fn bytes(&self) -> &[u8]
        ensures bytes { result.now ≡ self.now }
    {
        self.bytes.as_slice()
    }

    /// Which file they stand in.
    pub fn identities(&self) -> Identities {
        self.identities
    }
}

/// A file or a variable: what stands under a name. Contracts see an `Entry`.
#[derive(Drop)]
pub struct Named {
    name: String,
    contents: Contents,
}

impl Model for Named {
    ghost Value = { Entry };

    ghost view = { λ n. record { name = string_bytes n.name; bytes = n.contents } };
}

impl Named {
    /// This stands under this name.
    pub fn new(name: String, contents: Contents) -> Named
        ensures entry { result ≡ record { name = string_bytes name; bytes = contents } }
    {
        Named { name, contents }
    }

    fn has_name(&self, name: &str) -> bool
        ensures same { result ≡ bytes_eq self.now.name name.now }
    {
        self.name.as_str() == name
    }
}

/// What stands first under this name.
pub fn find<'a>(entries: &'a [Named], name: &str) -> Option<&'a Contents>
    ensures found { option_map (λ c. c.now) result ≡ lookup entries.now name.now }
{
    entries
        .iter()
        .find(|entry| entry.has_name(name))
        .map(|entry| &entry.contents)
}
