//! BLAKE2b of a message that is handed in piece by piece (RFC 7693, 3.3).
ghost use Rattle.std.specs.Prelude.{◌≡◌, ℕ, false, ◌+◌, ◌%◌, ◌^◌, ◌<◌, ◌≤◌, ◌++◌, List, [], length, take};
ghost use Rattle.blake.specs.Blake2b.{blake2b, compress};

use crate::compression::{BLOCK_LEN, IV, compress};
use byteorder::{ByteOrder, LittleEndian};

// Makes room for the bytes that follow: a full buffer goes into the state, since it was not the
// message's last block. Gives how many bytes the buffer then holds.
fn make_room(state: &mut [u64; 8], buffer: &[u8; BLOCK_LEN], used: usize, total: u64) -> usize
    requires used { used ≤ BLOCK_LEN }
    ensures full { used ≡ BLOCK_LEN → state.new ≡ compress state.old buffer.now total false }
    ensures open { used < BLOCK_LEN → state.new ≡ state.old }
    ensures used { result ≡ used % BLOCK_LEN }
{
    if used == BLOCK_LEN {
        compress(state, buffer, total, false);
        0
    } else {
        used
    }
}

/// BLAKE2b without a key (RFC 7693) of a message that is handed in piece by piece.
///
/// Contracts see of a value `s` its `hash_len s`, the bytes of the hash that it will give, 1 to
/// 64; its `hashed_message_len s`, the bytes of message that it was handed so far, fewer than 2^64; and
/// by `Holds n s m` the message itself: `s` will give a hash of `n` bytes, and was handed `m`.
#[derive(Drop)]
pub struct Blake2b {
    // The state h of RFC 7693, 3.2, after all blocks that are surely not the message's last.
    state: [u64; 8],
    // The bytes of the message after those blocks: the first `used` of these.
    buffer: [u8; BLOCK_LEN],
    used: usize,
    // The bytes of the message so far, those in the buffer too.
    total: u64,
    // The bytes of the hash.
    out_len: usize,
    ghost used_in_buffer: { used ≤ 128 },
    ghost output_in_state: { out_len ≤ 64 },
}

impl Blake2b {
    ghost use Rattle.blake.specs.State.{Holds, IsHandedNext, hashed_message_len, hash_len};

    /// A hash of `out_len` bytes, 1 to 64, that was handed nothing so far (RFC 7693, 2.1 and 2.5).
    pub fn new(out_len: usize) -> Self
        requires at_least_1 { 1 ≤ out_len }
        requires at_most_64 { out_len ≤ 64 }
        ensures hash_len { hash_len result ≡ out_len }
        ensures hashed_message_len { hashed_message_len result ≡ 0 }
        ensures holds { Holds out_len result [] }
    {
        let mut state = IV;
        state[0] = IV[0] ^ (0x01010000 ^ out_len as u64);
        Blake2b {
            state,
            buffer: [0; BLOCK_LEN],
            used: 0,
            total: 0,
            out_len,
        }
    }

    // Takes in as many bytes as fit the block at hand, and gives how many these are.
    fn take_some(&mut self, bytes: &[u8]) -> usize
        requires not_empty { 0 < length bytes.now }
        requires fits { hashed_message_len self.old + length bytes.now < 2 ^ 64 }
        ensures at_least_1 { 0 < result }
        ensures within { result ≤ length bytes.now }
        ensures hash_len { hash_len self.new ≡ hash_len self.old }
        ensures hashed_message_len { hashed_message_len self.new ≡ hashed_message_len self.old + result }
        ensures holds { (n : ℕ) (m : List ℕ) → Holds n self.old m
            → Holds n self.new (m ++ take result bytes.now) }
    {
        let used = make_room(&mut self.state, &self.buffer, self.used, self.total);
        let count = (BLOCK_LEN - used).min(bytes.len());
        self.buffer[used..used + count].copy_from_slice(&bytes[..count]);
        self.used = used + count;
        self.total += count as u64;
        count
    }

    /// Hands in the next bytes of the message, any number of them. A message has fewer than 2^64
    /// bytes in all, where RFC 7693, 2.1 allows 2^128.
    pub fn update(&mut self, bytes: &[u8])
        requires fits { hashed_message_len self.old + length bytes.now < 2 ^ 64 }
        ensures handed { IsHandedNext bytes.now self.old self.new }
    {
        let mut start = 0;
        while start < bytes.len() {
            start += self.take_some(&bytes[start..]);
        }
    }

    /// Writes the hash of the message handed in into `out`, which has as many bytes as `new` was
    /// asked for (RFC 7693, 3.3).
    pub fn finish(self, out: &mut [u8])
        requires hash_len { length out.old ≡ hash_len self }
        ensures hash { (n : ℕ) (m : List ℕ) → Holds n self m → out.new ≡ blake2b n m }
    {
        let mut block = [0u8; BLOCK_LEN];
        block[..self.used].copy_from_slice(&self.buffer[..self.used]);
        let mut state = self.state;
        compress(&mut state, &block, self.total, true);
        let mut bytes = [0u8; 64];
        LittleEndian::write_u64_into(&state, &mut bytes);
        out.copy_from_slice(&bytes[..self.out_len]);
    }
}
