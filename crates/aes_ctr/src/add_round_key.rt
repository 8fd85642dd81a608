//! AddRoundKey (FIPS 197, 5.1.4).
ghost use Rattle.std.specs.Prelude.{◌≡◌, ◌<◌};
ghost use Rattle.aes_ctr.specs.Aes.{add_round_key};
ghost use Rattle.aes_ctr.specs.Planes.{round_key};

use crate::key_expansion::KeySchedule;
use std::simd::prelude::*;

#[inline(always)]
pub(crate) fn round_key(words: &KeySchedule, round: usize) -> u8x16
    requires round { round < 15 }
    ensures key { result ≡ round_key words.now round }
{
    let [a0, a1, a2, a3] = words[4 * round];
    let [b0, b1, b2, b3] = words[4 * round + 1];
    let [c0, c1, c2, c3] = words[4 * round + 2];
    let [d0, d1, d2, d3] = words[4 * round + 3];
    u8x16::from_array([
        a0, a1, a2, a3, b0, b1, b2, b3, c0, c1, c2, c3, d0, d1, d2, d3,
    ])
}

#[inline(always)]
pub(crate) fn add_round_key(words: &KeySchedule, round: usize, state: u8x16) -> u8x16
    requires round { round < 15 }
    ensures state { result ≡ add_round_key words.now round state }
{
    state ^ round_key(words, round)
}
