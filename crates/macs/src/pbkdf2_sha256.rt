//! PBKDF2 with HMAC-SHA-256 and one iteration (RFC 8018, section 5.2).
ghost use Rattle.std.specs.Prelude.{◌≡◌, ℕ, ◌*◌, ◌-◌, ◌^◌, ◌≤◌, List, length};
ghost use Rattle.macs.specs.Hmac.{Holds};
ghost use Rattle.macs.specs.Pbkdf2.{pbkdf2, pbkdf2_block};

use crate::hmac::Hmac;

/// Bytes of a block of PBKDF2, which is one HMAC-SHA-256.
const BLOCK_LEN: usize = 32;

// The HMAC under the password of the salt so far, with which each block begins.
fn running_hmac_of_salt(password: &[u8], salt: &[u8]) -> Hmac
    ensures salt { Holds result password.now salt.now }
{
    let mut mac = Hmac::new(password);
    mac.update(salt);
    mac
}

// The block of this index, on from the HMAC of the salt.
pub(crate) fn block_from_salted_hmac(salted: &Hmac, index: u32) -> [u8; BLOCK_LEN]
    ensures block { (password salt : List ℕ) → Holds salted.now password salt
        → result ≡ pbkdf2_block password salt index }
{
    let mut mac = salted.clone().unwrap();
    mac.update(&index.to_be_bytes());
    mac.finish()
}

/// Block `index` of PBKDF2 with one iteration (RFC 8018, section 5.2, step 3; blocks are counted
/// from 1): the HMAC under the password of the salt and of the index in four bytes, the highest
/// first.
pub fn pbkdf2_block(password: &[u8], salt: &[u8], index: u32) -> [u8; 32]
    ensures block { result ≡ pbkdf2_block password.now salt.now index }
{
    block_from_salted_hmac(&running_hmac_of_salt(password, salt), index)
}

// Fills `out` with the key that PBKDF2 derives, on from the HMAC of the salt.
pub(crate) fn write_key(salted: &Hmac, out: &mut [u8])
    requires fits { length out.old ≤ 32 * (2 ^ 32 - 1) }
    ensures key { (password salt : List ℕ) → Holds salted.now password salt
        → out.new ≡ pbkdf2 password salt (length out.old) }
{
    for done in 0..out.len().div_ceil(BLOCK_LEN) {
        let block = block_from_salted_hmac(salted, done as u32 + 1);
        let start = BLOCK_LEN * done;
        let len = BLOCK_LEN.min(out.len() - start);
        out[start..start + len].copy_from_slice(&block[..len]);
    }
}

/// Fills `out`, at most 32 * (2^32 - 1) bytes, with the key that PBKDF2 with one iteration derives
/// from the password and the salt (RFC 8018, section 5.2; RFC 7914, section 6).
pub fn pbkdf2(password: &[u8], salt: &[u8], out: &mut [u8])
    requires fits { length out.old ≤ 32 * (2 ^ 32 - 1) }
    ensures key { out.new ≡ pbkdf2 password.now salt.now (length out.old) }
{
    write_key(&running_hmac_of_salt(password, salt), out);
}
