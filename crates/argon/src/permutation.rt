//! The permutation P (RFC 9106, section 3.6) of four lists of sixteen words side by side. One P is a
//! chain of steps that wait for each other, so four overlap.
ghost use Rattle.std.specs.Prelude.{◌≡◌, ℕ, ◌+◌, ◌*◌, ◌%◌, ◌^◌, ◌<◌, bit_xor};
ghost use Rattle.std.specs.Int.{w64, rotate_right};
ghost use Rattle.argon.specs.Compression.{mixed_words, permutation, sum_with_product};
ghost use Rattle.argon.specs.Inside.FourWords.{AreMadeOfTwoWords, AreMadeOfWords, turned_to_columns, turned_to_diagonals, word_of_each_vector};

use crate::four_lists::{FourLists, transposed};
use std::simd::u64x16;

// The low 32 bits of each word.
#[inline(always)]
fn low_half(words: u64x16) -> u64x16
    ensures value { AreMadeOfWords (λ word. word % 2 ^ 32) words result }
{
    words & u64x16::splat(0xffff_ffff)
}

#[inline(always)]
fn sum(a: u64x16, b: u64x16) -> u64x16
    ensures value { AreMadeOfTwoWords (λ x y. (x + y) % 2 ^ 64) a b result }
{
    a + b
}

#[inline(always)]
fn product(a: u64x16, b: u64x16) -> u64x16
    ensures value { AreMadeOfTwoWords (λ x y. (x * y) % 2 ^ 64) a b result }
{
    a * b
}

// The sum that takes the place of BLAKE2b's.
#[inline(always)]
fn sum_with_product(a: u64x16, b: u64x16) -> u64x16
    ensures value { AreMadeOfTwoWords sum_with_product a b result }
{
    let product = product(low_half(a), low_half(b));
    sum(sum(a, b), sum(product, product))
}

#[inline(always)]
fn rotated(words: u64x16, count: u64) -> u64x16
    requires range { (0 < count) × (count < 64) }
    ensures value { AreMadeOfWords (λ word. rotate_right w64 word count) words result }
{
    (words >> u64x16::splat(count)) | (words << u64x16::splat(64 - count))
}

#[inline(always)]
fn rotated_xor(a: u64x16, b: u64x16, count: u64) -> u64x16
    requires range { (0 < count) × (count < 64) }
    ensures value { AreMadeOfTwoWords (λ x y. rotate_right w64 (bit_xor x y) count) a b result }
{
    rotated(a ^ b, count)
}

// GB at the four places of each of four lists that stand side by side: a, b, c and d are the standard's words.
#[inline(always)]
fn mix(lists: FourLists) -> FourLists
    ensures value { (number : ℕ) → number < 16
        → word_of_each_vector number result ≡ mixed_words (word_of_each_vector number lists) }
{
    let (a, b, c, d) = lists;
    let a = sum_with_product(a, b);
    let d = rotated_xor(d, a, 32);
    let c = sum_with_product(c, d);
    let b = rotated_xor(b, c, 24);
    let a = sum_with_product(a, b);
    let d = rotated_xor(d, a, 16);
    let c = sum_with_product(c, d);
    let b = rotated_xor(b, c, 63);
    (a, b, c, d)
}

// From columns to diagonals: the words of each list in b turned by one place, in c by two and in d by three.
#[inline(always)]
fn to_diagonals(lists: FourLists) -> FourLists
    ensures diagonals { result ≡ turned_to_diagonals lists }
{
    let (a, b, c, d) = lists;
    (
        a,
        b.swizzle([1, 2, 3, 0, 5, 6, 7, 4, 9, 10, 11, 8, 13, 14, 15, 12]),
        c.swizzle([2, 3, 0, 1, 6, 7, 4, 5, 10, 11, 8, 9, 14, 15, 12, 13]),
        d.swizzle([3, 0, 1, 2, 7, 4, 5, 6, 11, 8, 9, 10, 15, 12, 13, 14]),
    )
}

// From diagonals back to columns: the same turn, with b and d in each other's place.
#[inline(always)]
fn to_columns(lists: FourLists) -> FourLists
    ensures columns { result ≡ turned_to_columns lists }
{
    let (a, b, c, d) = lists;
    let (a, d, c, b) = to_diagonals((a, d, c, b));
    (a, b, c, d)
}

/// The permutation P of four lists, one in each vector, before and after.
#[inline(always)]
pub(crate) fn permute(one: u64x16, two: u64x16, three: u64x16, four: u64x16) -> FourLists
    ensures first { result.0 ≡ permutation one }
    ensures second { result.1 ≡ permutation two }
    ensures third { result.2 ≡ permutation three }
    ensures fourth { result.3 ≡ permutation four }
{
    let mixed = mix(transposed((one, two, three, four)));
    let mixed = mix(to_diagonals(mixed));
    transposed(to_columns(mixed))
}
