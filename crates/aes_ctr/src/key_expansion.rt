//! KeyExpansion of AES-256 (FIPS 197, 5.2).
ghost use Rattle.std.specs.Prelude.{◌≡◌, ◌*◌, ◌<◌, ◌≤◌, bit_xor, drop, take};
ghost use Rattle.std.specs.Simd.Lanes.{zip2};
ghost use Rattle.aes_ctr.specs.Aes.{key_of, key_schedule, rot_word, sub_word, key_expansion_temp};

use crate::sub_bytes::sub_bytes;
use std::simd::prelude::*;

// 15 round keys of four words.
pub(crate) type KeySchedule = [[u8; 4]; 60];

// Four bytes of a state, so that no byte of the key is an index of the table.
fn sub_word(word: [u8; 4]) -> [u8; 4]
    ensures word { result ≡ sub_word word }
{
    let [b0, b1, b2, b3] = word;
    let state = u8x16::from_array([b0, b1, b2, b3, 0, 0, 0, 0, 0, 0, 0, 0, 0, 0, 0, 0]);
    let [s0, s1, s2, s3, ..] = sub_bytes(state).to_array();
    [s0, s1, s2, s3]
}

// The first byte goes to the end.
fn rot_word(word: [u8; 4]) -> [u8; 4]
    ensures word { result ≡ rot_word word }
{
    let [b0, b1, b2, b3] = word;
    [b1, b2, b3, b0]
}

// Two words, byte by byte.
fn xor_words(left: [u8; 4], right: [u8; 4]) -> [u8; 4]
    ensures word { result ≡ zip2 bit_xor left right }
{
    let [l0, l1, l2, l3] = left;
    let [r0, r1, r2, r3] = right;
    [l0 ^ r0, l1 ^ r1, l2 ^ r2, l3 ^ r3]
}

// What word i takes from the word before it.
fn key_expansion_temp(word: [u8; 4], i: usize) -> [u8; 4]
    requires after_key { 8 ≤ i }
    requires within { i < 60 }
    ensures word { result ≡ key_expansion_temp word i }
{
    if i % 8 == 0 {
        let round_constant = [1 << (i / 8 - 1), 0, 0, 0];
        xor_words(sub_word(rot_word(word)), round_constant)
    } else if i % 8 == 4 {
        sub_word(word)
    } else {
        word
    }
}

// Word i of the key.
fn key_word(key: &[u8; 32], i: usize) -> [u8; 4]
    requires within { i < 8 }
    ensures word { result ≡ take 4 (drop (4 * i) key.now) }
{
    let mut word = [0u8; 4];
    word.copy_from_slice(&key[4 * i..4 * i + 4]);
    word
}

// The key's eight words, and 52 more.
pub(crate) fn key_expansion(key: &[u8; 32]) -> KeySchedule
    ensures schedule { result ≡ key_schedule key.now }
    ensures key { key_of result ≡ key.now }
{
    let mut words = [[0u8; 4]; 60];
    'key: for i in 0..8 {
        words[i] = key_word(key, i);
    }
    'more: for n in 0..52 {
        let temp = key_expansion_temp(words[n + 7], n + 8);
        words[n + 8] = xor_words(words[n], temp);
    }
    words
}
