//! Whole blocks xored with the key stream (NIST SP 800-38A, 6.5).
ghost use Rattle.std.specs.Prelude.{◌≡◌, ◌+◌, ◌*◌, ◌%◌, ◌<◌, ◌≤◌, ◌^◌, ◌++◌, ℕ, List, bit_xor, length};
ghost use Rattle.std.specs.Simd.Lanes.{zip2};
ghost use Rattle.aes_ctr.specs.Aes.{key_schedule};
ghost use Rattle.aes_ctr.specs.CounterMode.{counter_block, key_stream_block, FitsKeyStream, XorsKeyStream};
ghost use Rattle.aes_ctr.specs.Inside.PlaneSteps.{XorsKeyStreamByPlanes};
ghost use Rattle.aes_ctr.specs.Planes.{AreKeyPlanes, plane};

use crate::block_cipher::Aes256;
use crate::cipher_sixteen::cipher_sixteen;
use crate::key_planes::KeyPlanes;
use crate::planes::joined;
use std::simd::prelude::*;

// The nonce 0 and the number, both big-endian.
fn counter_block(number: u64) -> u8x16
    ensures block { result ≡ counter_block number }
{
    u64x2::from_array([0, number.swap_bytes()]).to_le_bytes()
}

pub(crate) fn key_stream_block(aes: &Aes256, number: u64) -> [u8; 16]
    ensures block { result ≡ key_stream_block aes.now number }
{
    aes.block(&counter_block(number).to_array())
}

// Xors a piece of the key stream, one block or two, into as many bytes.
fn xor_into<const N: usize>(bytes: &mut [u8], stream: Simd<u8, N>)
    requires as_long { length bytes.old ≡ N }
    ensures xored { bytes.new ≡ zip2 bit_xor bytes.old stream.entry }
{
    (Simd::<u8, N>::from_slice(bytes) ^ stream).copy_to_slice(bytes);
}

fn xor_one_block_with_key_stream(aes: &Aes256, number: u64, bytes: &mut [u8])
    requires one_block { length bytes.old ≡ 16 }
    ensures xored { XorsKeyStream aes.now (16 * number) bytes.old bytes.new }
{
    xor_into(bytes, u8x16::from_array(key_stream_block(aes, number)));
}

// The counter blocks of that number and the next.
fn counter_blocks(number: u64) -> u8x32
    requires room { number + 1 < 2 ^ 64 }
    ensures blocks { result ≡ counter_block number ++ counter_block (number + 1) }
{
    joined(counter_block(number), counter_block(number + 1))
}

// Sixteen blocks of the key stream, in pairs.
fn sixteen_blocks(planes: &KeyPlanes, number: u64) -> [u8x32; 8]
    requires room { number + 16 ≤ 2 ^ 64 }
    ensures stream { (key : List ℕ) → AreKeyPlanes (key_schedule key) planes.now
        → (b : ℕ) → b < 8 → plane result b ≡ key_stream_block key (number + 2 * b) ++ key_stream_block key (number + 2 * b + 1) }
{
    cipher_sixteen(
        planes,
        [
            counter_blocks(number),
            counter_blocks(number + 2),
            counter_blocks(number + 4),
            counter_blocks(number + 6),
            counter_blocks(number + 8),
            counter_blocks(number + 10),
            counter_blocks(number + 12),
            counter_blocks(number + 14),
        ],
    )
}

fn xor_sixteen_blocks(planes: &KeyPlanes, number: u64, bytes: &mut [u8])
    requires sixteen_blocks { length bytes.old ≡ 256 }
    requires room { number + 16 ≤ 2 ^ 64 }
    ensures xored { XorsKeyStreamByPlanes planes.now number bytes.old bytes.new }
{
    let stream = sixteen_blocks(planes, number);
    for i in 0..8 {
        xor_into(&mut bytes[32 * i..32 * i + 32], stream[i]);
    }
}

fn xor_groups_of_sixteen(planes: &KeyPlanes, number: u64, bytes: &mut [u8])
    requires whole_groups { length bytes.old % 256 ≡ 0 }
    requires room { FitsKeyStream (16 * number) bytes.old }
    ensures xored { XorsKeyStreamByPlanes planes.now number bytes.old bytes.new }
{
    for i in 0..bytes.len() / 256 {
        xor_sixteen_blocks(
            planes,
            number + 16 * i as u64,
            &mut bytes[256 * i..256 * i + 256],
        );
    }
}

fn xor_single_blocks(aes: &Aes256, number: u64, bytes: &mut [u8])
    requires whole_blocks { length bytes.old % 16 ≡ 0 }
    requires room { FitsKeyStream (16 * number) bytes.old }
    ensures xored { XorsKeyStream aes.now (16 * number) bytes.old bytes.new }
{
    for i in 0..bytes.len() / 16 {
        xor_one_block_with_key_stream(aes, number + i as u64, &mut bytes[16 * i..16 * i + 16]);
    }
}

/// Xors whole blocks with the key stream of the Counter mode (NIST SP 800-38A, 6.5) from the block of that number on, as
/// [`Ctr`](crate::Ctr) does after as many blocks. The first block has the number 0. The planes are those of the key, by
/// [`Aes256::key_planes`]. Any number of whole blocks of 16 bytes is taken whose end in the key stream, in bytes, is below
/// 2^64; none is refused.
pub fn xor_blocks_with_key_stream(aes: &Aes256, planes: &KeyPlanes, number: u64, bytes: &mut [u8])
    requires planes { AreKeyPlanes (key_schedule aes.now) planes.now }
    requires whole_blocks { length bytes.old % 16 ≡ 0 }
    requires room { FitsKeyStream (16 * number) bytes.old }
    ensures xored { XorsKeyStream aes.now (16 * number) bytes.old bytes.new }
{
    let grouped = bytes.len() / 256 * 256;
    let (groups, singles) = bytes.split_at_mut(grouped);
    xor_groups_of_sixteen(planes, number, groups);
    xor_single_blocks(aes, number + (grouped / 16) as u64, singles);
}
