//! The key schedule in planes, for blocks that take the same key.
ghost use Rattle.std.specs.Prelude.{◌≡◌, ◌<◌, ◌++◌, ℕ, List};
ghost use Rattle.aes_ctr.specs.Aes.{add_round_key};
ghost use Rattle.aes_ctr.specs.Inside.PlaneSteps.{AppliesToBothBlocks, HoldRoundKey};
ghost use Rattle.aes_ctr.specs.Planes.{AreKeyPlanes, IsAesBlock, bits};

use crate::add_round_key::round_key;
use crate::key_expansion::KeySchedule;
use crate::planes::{Planes, joined, xor_planes};
use crate::sub_bytes::select_by_bit;
use std::simd::prelude::*;

/// The key schedule in the form that sixteen blocks at once are encrypted with: eight planes for each of the 15 round keys,
/// of which plane k has in each bit of a lane the bit k of the key's byte in that place.
pub type KeyPlanes = [[u8; 16]; 120];

// All bits of a lane are bit k of the key's byte.
#[inline(always)]
fn key_plane(key: u8x16, k: usize) -> [u8; 16]
    requires bit { k < 8 }
    ensures key { IsAesBlock key }
    ensures bits { (b : ℕ) → b < 8 → bits b result ≡ bits k key }
{
    select_by_bit(1 << k, key, u8x16::splat(255), u8x16::splat(0)).to_array()
}

pub(crate) fn key_planes(words: &KeySchedule) -> KeyPlanes
    ensures planes { AreKeyPlanes words.now result }
{
    let mut planes = [[0u8; 16]; 120];
    'planes: for i in 0..120 {
        planes[i] = key_plane(round_key(words, i / 8), i % 8);
    }
    planes
}

// The plane for both blocks of a pair.
#[inline(always)]
fn bit_plane_for_both_blocks(plane: [u8; 16]) -> u8x32
    ensures twice { result ≡ plane ++ plane }
{
    let plane = u8x16::from_array(plane);
    joined(plane, plane)
}

// AddRoundKey (FIPS 197, 5.1.4) on planes.
#[inline(always)]
pub(crate) fn add_planes(keys: &KeyPlanes, round: usize, state: Planes) -> Planes
    requires round { round < 15 }
    ensures held { (words : List (List ℕ)) (b : ℕ) → HoldRoundKey b words round keys.now
        → AppliesToBothBlocks b (add_round_key words round) state result }
{
    let key = [
        bit_plane_for_both_blocks(keys[8 * round]),
        bit_plane_for_both_blocks(keys[8 * round + 1]),
        bit_plane_for_both_blocks(keys[8 * round + 2]),
        bit_plane_for_both_blocks(keys[8 * round + 3]),
        bit_plane_for_both_blocks(keys[8 * round + 4]),
        bit_plane_for_both_blocks(keys[8 * round + 5]),
        bit_plane_for_both_blocks(keys[8 * round + 6]),
        bit_plane_for_both_blocks(keys[8 * round + 7]),
    ];
    xor_planes(state, key)
}
