//! AES-256 with its key.
ghost use Rattle.std.specs.Prelude.{◌≡◌};
ghost use Rattle.aes_ctr.specs.Aes.{aes256, key_schedule};
ghost use Rattle.aes_ctr.specs.Planes.{AreKeyPlanes};

use crate::cipher::cipher;
use crate::key_expansion::{KeySchedule, key_expansion};
use crate::key_planes::{KeyPlanes, key_planes};
use std::marker::Model;
use std::simd::prelude::*;

/// AES with a key of 256 bits (FIPS 197), ready to encrypt: it holds the key schedule, which is computed once.
///
/// Contracts see the 32 bytes of the key.
#[derive(Drop)]
pub struct Aes256 {
    words: KeySchedule,
}

impl Model for Aes256 {
    ghost use Rattle.std.specs.Prelude.{◌≡◌, ℕ, List};
    ghost use Rattle.aes_ctr.specs.Aes.{key_of, key_schedule};

    ghost Value = { List ℕ };

    ghost view = { λ a. key_of a.words };

    ghost invariant = { λ a. a.words ≡ key_schedule (key_of a.words) };
}

impl Aes256 {
    /// Expands a key of 32 bytes into its key schedule (FIPS 197, 5.2).
    pub fn new(key: &[u8; 32]) -> Aes256
        ensures key { result ≡ key.now }
    {
        Aes256 {
            words: key_expansion(key),
        }
    }

    /// Encrypts one block of 16 bytes (FIPS 197, 5.1).
    pub fn block(&self, block: &[u8; 16]) -> [u8; 16]
        ensures cipher_text { result ≡ aes256 self.now block.now }
    {
        cipher(&self.words, u8x16::from_array(*block)).to_array()
    }

    /// The key schedule (FIPS 197, 5.2) in planes, which [`xor_blocks_with_key_stream`](crate::xor_blocks_with_key_stream) takes. It is made once for many
    /// calls, and is as secret as the key.
    pub fn key_planes(&self) -> KeyPlanes
        ensures planes { AreKeyPlanes (key_schedule self.now) result }
    {
        key_planes(&self.words)
    }
}
