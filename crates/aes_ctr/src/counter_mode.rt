//! The Counter mode in pieces.
ghost use Rattle.std.specs.Prelude.{◌≡◌, ◌/◌, ◌%◌, ◌<◌, length};
ghost use Rattle.aes_ctr.specs.CounterMode.{AppliesKeyStream, key_stream_block, FitsKeyStream};

use crate::block_cipher::Aes256;
use crate::key_planes::KeyPlanes;
use crate::key_stream::{key_stream_block, xor_blocks_with_key_stream};
use std::marker::Model;

// Makes the block of key stream that holds the position, where the position begins one.
fn refresh(aes: &Aes256, position: u64, stream: &mut [u8; 16])
    requires begun { 0 < position % 16 → stream.old ≡ key_stream_block aes.now (position / 16) }
    ensures stream { stream.new ≡ key_stream_block aes.now (position / 16) }
{
    if position % 16 == 0 {
        *stream = key_stream_block(aes, position / 16);
    }
}

/// AES-256 in the Counter mode (NIST SP 800-38A, 6.5) with the counter blocks of scrypt's encrypted files: eight bytes 0,
/// then the number of the block as eight bytes, big-endian. Encryption and decryption are the same.
///
/// It keeps at most one block of key stream. Contracts see the key, and the position: the place in the key stream of the
/// next byte, in bytes.
#[derive(Drop)]
pub struct Ctr {
    aes: Aes256,
    // The key schedule of `aes`, for sixteen blocks at once.
    planes: KeyPlanes,
    position: u64,
    // The block of key stream that holds the position, where the position isn't at its start.
    stream: [u8; 16],
}

impl Model for Ctr {
    ghost use Rattle.std.specs.Prelude.{◌≡◌, ◌<◌, ◌/◌, ◌%◌};
    ghost use Rattle.aes_ctr.specs.Aes.{key_schedule};
    ghost use Rattle.aes_ctr.specs.Planes.{AreKeyPlanes};
    ghost use Rattle.aes_ctr.specs.CounterMode.{KeyStreamPlace, key_stream_block};

    ghost Value = { KeyStreamPlace };

    ghost view = { λ c. record { key = c.aes; position = c.position } };

    ghost invariant = { λ c. AreKeyPlanes (key_schedule c.aes) c.planes × (0 < c.position % 16 → c.stream ≡ key_stream_block c.aes (c.position / 16)) };
}

impl Ctr {
    /// Counter mode from the first byte of the key stream on.
    pub fn new(aes: Aes256) -> Ctr
        ensures key { result.key ≡ aes }
        ensures position { result.position ≡ 0 }
    {
        Ctr {
            planes: aes.key_planes(),
            aes,
            position: 0,
            stream: [0; 16],
        }
    }

    /// The number of bytes that were applied so far.
    pub fn position(&self) -> u64
        ensures position { result ≡ self.now.position }
    {
        self.position
    }

    // Byte by byte, from any position on.
    fn apply_bytes(&mut self, bytes: &mut [u8])
        requires room { FitsKeyStream self.old.position bytes.old }
        ensures applied { AppliesKeyStream self.old self.new bytes.old bytes.new }
    {
        for byte in bytes.iter_mut() {
            refresh(&self.aes, self.position, &mut self.stream);
            *byte ^= self.stream[(self.position % 16) as usize];
            self.position += 1;
        }
    }

    // Whole blocks, from the start of a block on, past the kept block of key stream.
    fn xor_whole_blocks(&mut self, bytes: &mut [u8])
        requires block_begins { self.old.position % 16 ≡ 0 }
        requires whole_blocks { length bytes.old % 16 ≡ 0 }
        requires room { FitsKeyStream self.old.position bytes.old }
        ensures applied { AppliesKeyStream self.old self.new bytes.old bytes.new }
    {
        xor_blocks_with_key_stream(&self.aes, &self.planes, self.position / 16, bytes);
        self.position += bytes.len() as u64;
    }

    /// Xors the bytes with the key stream from the position on, and moves the position after them. Any number of bytes is
    /// taken that keeps the position below 2^64.
    ///
    /// So the pieces of a text, applied one after the other, become what the text becomes in one piece.
    pub fn apply(&mut self, bytes: &mut [u8])
        requires room { FitsKeyStream self.old.position bytes.old }
        ensures applied { AppliesKeyStream self.old self.new bytes.old bytes.new }
    {
        // how many bytes of a begun block of key stream are left
        let left_of_block = ((16 - self.position % 16) % 16) as usize;
        if bytes.len() <= left_of_block {
            self.apply_bytes(bytes);
        } else {
            let (head, rest) = bytes.split_at_mut(left_of_block);
            let whole = rest.len() / 16 * 16;
            let (blocks, tail) = rest.split_at_mut(whole);
            self.apply_bytes(head);
            self.xor_whole_blocks(blocks);
            self.apply_bytes(tail);
        }
    }
}
