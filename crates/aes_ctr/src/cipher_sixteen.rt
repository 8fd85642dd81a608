//! The cipher (FIPS 197, 5.1) of sixteen blocks at once, in planes.
ghost use Rattle.std.specs.Prelude.{◌≡◌, ◌<◌, ℕ, List};
ghost use Rattle.aes_ctr.specs.Aes.{cipher};
ghost use Rattle.aes_ctr.specs.Planes.{AreKeyPlanes, plane};
ghost use Rattle.aes_ctr.specs.Inside.PlaneSteps.{AppliesToBothBlocks, HoldRoundKey, after_last_round, after_round, applied_to_both_blocks};

use crate::key_planes::{KeyPlanes, add_planes};
use crate::mix_planes::mix_planes;
use crate::planes::Planes;
use crate::shift_planes::shift_planes;
use crate::sub_planes::sub_planes;
use crate::transposition::transposed;
use std::simd::prelude::*;

// One of the thirteen rounds with MixColumns.
#[inline(always)]
fn round(keys: &KeyPlanes, round: usize, state: Planes) -> Planes
    requires round { round < 15 }
    ensures held { (words : List (List ℕ)) (b : ℕ) → b < 8 → HoldRoundKey b words round keys.now
        → AppliesToBothBlocks b (after_round words round) state result }
{
    add_planes(keys, round, mix_planes(shift_planes(sub_planes(state))))
}

#[inline(always)]
fn last_round(keys: &KeyPlanes, state: Planes) -> Planes
    ensures held { (words : List (List ℕ)) (b : ℕ) → b < 8 → HoldRoundKey b words 14 keys.now
        → AppliesToBothBlocks b (after_last_round words) state result }
{
    add_planes(keys, 14, shift_planes(sub_planes(state)))
}

// The cipher of both blocks of each of eight pairs.
pub(crate) fn cipher_sixteen(keys: &KeyPlanes, pairs: [u8x32; 8]) -> [u8x32; 8]
    ensures cipher_texts { (words : List (List ℕ)) → AreKeyPlanes words keys.now
        → (b : ℕ) → b < 8 → plane result b ≡ applied_to_both_blocks (cipher words) (plane pairs b) }
{
    let mut state = add_planes(keys, 0, transposed(pairs));
    'rounds: for done in 0..13 {
        let next = round(keys, done + 1, state);
        state = next;
    }
    transposed(last_round(keys, state))
}
