//! Secrets under names, the latest first: where a name is given again, the later bytes are found.
ghost use Rattle.std.specs.Prelude.{◌≡◌, option_map, string_bytes, bytes_eq};
ghost use Rattle.host.specs.Entries.{Entry, lookup};

use std::marker::Model;

/// The bytes of a secret and its name, as a [`MemoryHost`](crate::MemoryHost) keeps it. A source of memory
/// of one's own passes it on as it is: [`GrowthMemory::prepend_entry`]. Contracts see an `Entry`.
#[derive(Drop)]
pub struct NamedSecret {
    pub(crate) name: String,
    pub(crate) bytes: Vec<u8>,
}

impl Model for NamedSecret {
    ghost Value = { Entry };

    ghost view = { λ n. record { name = string_bytes n.name; bytes = n.bytes.items } };
}

impl NamedSecret {
    fn has_name(&self, name: &str) -> bool
        ensures same { result ≡ bytes_eq self.now.name name.now }
    {
        self.name.as_str() == name
    }

    fn bytes(&self) -> &[u8]
        ensures bytes { result.now ≡ self.now.bytes }
    {
        self.bytes.as_slice()
    }
}

// The bytes of the first entry of this name.
pub fn find<'a>(entries: &'a [NamedSecret], name: &str) -> Option<&'a [u8]>
    ensures found { option_map (λ b. b.now) result ≡ lookup entries.now name.now }
{
    entries
        .iter()
        .find(|entry| entry.has_name(name))
        .map(|entry| entry.bytes())
}
