//! PBKDF2 of a salt that is handed in by pieces.
ghost use Rattle.std.specs.Prelude.{◌*◌, ◌-◌, ◌^◌, ◌≤◌, [], length};
ghost use Rattle.macs.specs.KeyPair.{AppendsToSalt, IsOfPasswordAndSalt, Pbkdf2HasPasswordAndSalt};
ghost use Rattle.macs.specs.Pbkdf2.{pbkdf2, pbkdf2_block};

use crate::hmac::Hmac;
use crate::pbkdf2_sha256::{block_from_salted_hmac, write_key};

/// A running PBKDF2 with one iteration (RFC 8018, section 5.2): a password, and a salt that is handed
/// in by pieces. The salt is hashed once, for all blocks of the key.
///
/// Contracts see the password and the salt so far, by `Pbkdf2HasPasswordAndSalt`.
#[derive(Drop)]
pub struct Pbkdf2Pair {
    // has the salt
    salted: Hmac,
}

impl Pbkdf2Pair {
    /// Under `password`, with the empty salt.
    pub fn new(password: &[u8]) -> Pbkdf2Pair
        ensures empty { Pbkdf2HasPasswordAndSalt result password.now [] }
    {
        Pbkdf2Pair {
            salted: Hmac::new(password),
        }
    }

    /// Appends `bytes` to the salt.
    pub fn update(&mut self, bytes: &[u8])
        ensures appended { AppendsToSalt bytes.now self.old self.new }
    {
        self.salted.update(bytes);
    }

    /// Block `index` of the key (RFC 8018, section 5.2, step 3; blocks are counted from 1), of a
    /// key of any length.
    pub fn block(&self, index: u32) -> [u8; 32]
        ensures block { IsOfPasswordAndSalt self.now (λ password salt. pbkdf2_block password salt index) result }
    {
        block_from_salted_hmac(&self.salted, index)
    }

    /// Writes the key of as many bytes as `out` has, at most 32 * (2^32 - 1).
    pub fn write_key(self, out: &mut [u8])
        requires fits { length out.old ≤ 32 * (2 ^ 32 - 1) }
        ensures key { IsOfPasswordAndSalt self (λ password salt. pbkdf2 password salt (length out.old)) out.new }
    {
        write_key(&self.salted, out);
    }
}
