//! What the test of a password needs of a value.
ghost use Rattle.std.specs.Prelude.{◌≡◌, true, length};
ghost use Rattle.argon_text.specs.Value.{are_in_range};

use crate::encoded::Encoded;
use argon::Kind;

/// A tag, and the parameters and the salt with which it is claimed to be made: what a value lends to `verify`, or whoever
/// has them without an `Encoded`. The ranges are those of `Encoded`. Salt and tag are bytes alone: a list would lend its
/// allocator too, and memory could be asked for beside the source.
#[derive(Drop)]
pub struct HashView<'a> {
    /// Argon2d, Argon2i or Argon2id.
    pub kind: Kind,
    /// The version of Argon2: 0x10 or 0x13.
    pub version: u32,
    /// Memory in KiB: 8 * lanes to 2^32-1.
    pub memory: u32,
    /// Passes over memory: 1 to 2^32-1.
    pub passes: u32,
    /// Lanes: 1 to 2^24-1.
    pub lanes: u32,
    /// The salt: 8 to 255 bytes.
    pub salt: &'a [u8],
    /// The tag: 4 to 4,096 bytes.
    pub tag: &'a [u8],
    pub ghost in_range: { are_in_range version memory passes lanes (length salt.now) (length tag.now) ≡ true },
}

impl<'a> HashView<'a> {
    ghost use Rattle.argon_text.specs.View.{encoded_value_of_hash_view, value_of};

    /// What this value lends.
    pub fn of(encoded: &'a Encoded) -> HashView<'a>
        ensures value { encoded_value_of_hash_view result ≡ value_of encoded.now }
    {
        HashView {
            kind: encoded.kind,
            version: encoded.version,
            memory: encoded.memory,
            passes: encoded.passes,
            lanes: encoded.lanes,
            salt: &encoded.salt,
            tag: &encoded.tag,
        }
    }
}
