//! HMAC with SHA-256 (RFC 2104).
ghost use Rattle.std.specs.Prelude.{◌≡◌, ℕ, List, []};
ghost use Rattle.macs.specs.HmacSha256.{hmac_sha256, key_block, xored_with_byte};
ghost use Rattle.macs.specs.Hmac.{AppendsToMessage, Holds};

use sha2::{Digest, Sha256};

/// Bytes of a block of SHA-256.
const BLOCK_LEN: usize = 64;

/// The byte that ipad repeats (RFC 2104, section 2).
const INNER_PAD: u8 = 0x36;

/// The byte that opad repeats (RFC 2104, section 2).
const OUTER_PAD: u8 = 0x5C;

// The key as one block: hashed if it is longer than a block, and padded with zeros.
fn key_block(key: &[u8]) -> [u8; BLOCK_LEN]
    ensures block { result ≡ key_block key.now }
{
    let mut block = [0u8; BLOCK_LEN];
    if key.len() <= BLOCK_LEN {
        block[..key.len()].copy_from_slice(key);
    } else {
        let digest = Sha256::digest(key);
        block[..digest.len()].copy_from_slice(&digest);
    }
    block
}

// Each byte of the block xored with one byte.
fn xored_with_byte(block: &[u8; BLOCK_LEN], byte: u8) -> [u8; BLOCK_LEN]
    ensures bytes { result ≡ xored_with_byte byte block.now }
{
    let mut xored = [0u8; BLOCK_LEN];
    for i in 0..BLOCK_LEN {
        xored[i] = block[i] ^ byte;
    }
    xored
}

/// A running HMAC-SHA-256 (RFC 2104): a key, and a message that is handed in by pieces.
///
/// Contracts see the key and the bytes so far, by `Holds`. A copy by `clone` takes no memory, so
/// it can't fail, and goes on by itself.
#[derive(Drop, Clone)]
pub struct Hmac {
    // has K xor ipad and the message
    inner: Sha256,
    // has K xor opad
    outer: Sha256,
}

impl Hmac {
    /// The HMAC under `key`, a key of any number of bytes, of the empty message.
    pub fn new(key: &[u8]) -> Hmac
        ensures empty { Holds result key.now [] }
    {
        let block = key_block(key);
        let mut inner = Sha256::new();
        inner.update(xored_with_byte(&block, INNER_PAD).as_slice());
        let mut outer = Sha256::new();
        outer.update(xored_with_byte(&block, OUTER_PAD).as_slice());
        Hmac { inner, outer }
    }

    /// Appends `bytes` to the message.
    pub fn update(&mut self, bytes: &[u8])
        ensures appended { AppendsToMessage bytes.now self.old self.new }
    {
        self.inner.update(bytes);
    }

    /// The code of the message, 32 bytes.
    pub fn finish(self) -> [u8; 32]
        ensures code { (key message : List ℕ) → Holds self key message
            → result ≡ hmac_sha256 key message }
    {
        let Hmac { inner, mut outer } = self;
        outer.update(inner.finalize().as_slice());
        outer.finalize()
    }
}
