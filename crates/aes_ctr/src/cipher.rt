//! The cipher under a key schedule (FIPS 197, 5.1).
ghost use Rattle.std.specs.Prelude.{◌≡◌, ◌<◌};
ghost use Rattle.aes_ctr.specs.Aes.{add_round_key, cipher, mix_columns, shift_rows, sub_bytes};

use crate::add_round_key::add_round_key;
use crate::key_expansion::KeySchedule;
use crate::mix_columns::mix_columns;
use crate::shift_rows::shift_rows;
use crate::sub_bytes::sub_bytes;
use std::simd::prelude::*;

// One of the thirteen rounds with MixColumns.
#[inline(always)]
fn round(words: &KeySchedule, round: usize, state: u8x16) -> u8x16
    requires round { round < 15 }
    ensures state { result ≡ add_round_key words.now round (mix_columns (shift_rows (sub_bytes state))) }
{
    add_round_key(words, round, mix_columns(shift_rows(sub_bytes(state))))
}

#[inline(always)]
fn last_round(words: &KeySchedule, state: u8x16) -> u8x16
    ensures state { result ≡ add_round_key words.now 14 (shift_rows (sub_bytes state)) }
{
    add_round_key(words, 14, shift_rows(sub_bytes(state)))
}

pub(crate) fn cipher(words: &KeySchedule, block: u8x16) -> u8x16
    ensures cipher_text { result ≡ cipher words.now block }
{
    let mut state = add_round_key(words, 0, block);
    'rounds: for done in 0..13 {
        state = round(words, done + 1, state);
    }
    last_round(words, state)
}
