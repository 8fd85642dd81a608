//! The settings of a hash, as its encoded text says them.
ghost use Rattle.std.specs.Prelude.{◌≡◌, ◌≢◌, ◌↔◌, IsTrue};
ghost use Rattle.argon_text.specs.Settings.{settings_of_encoded_value};
ghost use Rattle.argon_text.specs.View.{value_of};

use crate::encoded::Encoded;
use argon::Kind;

/// How a hash was made, or is to be made, and the lengths of its salt and its tag.
#[derive(Clone, Copy, Debug, PartialEq, Eq)]
pub struct Settings {
    /// Argon2d, Argon2i or Argon2id.
    pub kind: Kind,
    /// The version of Argon2.
    pub version: u32,
    /// Memory in KiB.
    pub memory: u32,
    /// Passes over memory.
    pub passes: u32,
    /// Lanes.
    pub lanes: u32,
    /// The length of the salt in bytes.
    pub salt_len: usize,
    /// The length of the tag in bytes.
    pub tag_len: usize,
}

impl Encoded {
    /// The settings by which the hash was made. No password is tested.
    pub fn settings(&self) -> Settings
        ensures settings { result ≡ settings_of_encoded_value (value_of self.now) }
    {
        Settings {
            kind: self.kind,
            version: self.version,
            memory: self.memory,
            passes: self.passes,
            lanes: self.lanes,
            salt_len: self.salt.len(),
            tag_len: self.tag.len(),
        }
    }

    /// Whether the hash was made by other settings than these, weaker or stronger: then it is made anew when the password
    /// is there next, after a good login.
    pub fn needs_rehash(&self, wanted: &Settings) -> bool
        ensures other { IsTrue result ↔ settings_of_encoded_value (value_of self.now) ≢ wanted.now }
    {
        self.settings() != *wanted
    }
}
