//! Blocks of 1,024 bytes: their rows and columns (RFC 9106, section 3.5), and their xor, four words
//! at a time.
ghost use Rattle.std.specs.Prelude.{◌≡◌, ◌+◌, ◌*◌, ◌<◌, ◌≤◌, bit_xor, length};
ghost use Rattle.std.specs.Simd.Lanes.{chunk, put_chunk, zip2};
ghost use Rattle.blake.specs.Words.{with_words_at, words_at};
ghost use Rattle.four_words.specs.Words.{xored_words};
ghost use Rattle.argon.specs.Compression.{column_places, row_places};
ghost use Rattle.four_words.specs.Inside.FourWords.{four_words};
ghost use Rattle.argon.specs.Inside.FourWords.{pair_places};

use crate::four_lists::{beside, quarters};
use std::simd::prelude::*;

/// A block: 128 words of 64 bits, 1,024 bytes. The register R\_i of RFC 9106, section 3.5, is words 2 i and 2 i + 1; in
/// bytes the lowest byte of a word comes first.
pub type Block = [u64; 128];

// Words that stand together.
#[inline(always)]
fn words_from<const N: usize>(words: &[u64], at: usize) -> Simd<u64, N>
    requires within { at + N ≤ length words.now }
    ensures value { result ≡ chunk at N words.now }
{
    Simd::<u64, N>::from_slice(&words[at..])
}

#[inline(always)]
fn put_words<const N: usize>(words: &mut [u64], at: usize, new: Simd<u64, N>)
    requires within { at + N ≤ length words.old }
    ensures value { words.new ≡ put_chunk at words.old new.entry }
{
    new.copy_to_slice(&mut words[at..]);
}

// Two words that stand together, and the two that stand sixteen places on.
#[inline(always)]
fn load_two_pairs(words: &[u64], at: usize) -> u64x4
    requires within { at + 18 ≤ length words.now }
    ensures value { four_words result ≡ words_at words.now (pair_places at) }
{
    u64x2::from_slice(&words[at..]).shuffle::<4>(u64x2::from_slice(&words[at + 16..]), [0, 1, 2, 3])
}

#[inline(always)]
fn put_two_pairs(words: &mut [u64], at: usize, new: u64x4)
    requires within { at + 18 ≤ length words.old }
    ensures value { words.new ≡ with_words_at words.old (pair_places at) (four_words new) }
{
    new.extract::<0, 2>().copy_to_slice(&mut words[at..]);
    new.extract::<2, 2>().copy_to_slice(&mut words[at + 16..]);
}

/// The sixteen words of a row.
#[inline(always)]
pub(crate) fn row(block: &Block, number: usize) -> u64x16
    requires rows { number < 8 }
    ensures value { result ≡ words_at block.now (row_places number) }
{
    words_from(block, 16 * number)
}

#[inline(always)]
pub(crate) fn put_row(block: &mut Block, number: usize, new: u64x16)
    requires rows { number < 8 }
    ensures value { block.new ≡ with_words_at block.old (row_places number) new }
{
    put_words(block, 16 * number, new);
}

/// The sixteen words of a column: eight pairs.
#[inline(always)]
pub(crate) fn column(block: &Block, number: usize) -> u64x16
    requires columns { number < 8 }
    ensures value { result ≡ words_at block.now (column_places number) }
{
    let at = 2 * number;
    beside(
        load_two_pairs(block, at),
        load_two_pairs(block, at + 32),
        load_two_pairs(block, at + 64),
        load_two_pairs(block, at + 96),
    )
}

#[inline(always)]
pub(crate) fn put_column(block: &mut Block, number: usize, new: u64x16)
    requires columns { number < 8 }
    ensures value { block.new ≡ with_words_at block.old (column_places number) new }
{
    let at = 2 * number;
    let (first, second, third, fourth) = quarters(new);
    put_two_pairs(block, at, first);
    put_two_pairs(block, at + 32, second);
    put_two_pairs(block, at + 64, third);
    put_two_pairs(block, at + 96, fourth);
}

#[inline(always)]
fn xor(first: u64x4, second: u64x4) -> u64x4
    ensures value { result ≡ zip2 bit_xor first second }
{
    first ^ second
}

/// Writes the xor of two blocks; what stood in `out` does not matter. Of the two blocks of a
/// [`Scratch`](crate::compression::Scratch) it is what the compression function G made, as the first pass stores it (RFC
/// 9106, section 3.2, step 5).
#[inline(always)]
pub fn write_xor(first: &Block, second: &Block, out: &mut Block)
    ensures value { out.new ≡ xored_words first.now second.now }
{
    'words: for i in 0..32 {
        let new = xor(words_from(first, 4 * i), words_from(second, 4 * i));
        put_words(out, 4 * i, new);
    }
}

/// Xors the xor of two blocks into a third, as the passes after the first store what the compression function G made (RFC
/// 9106, section 3.2, step 6), but those of version 0x10, which overwrite.
#[inline(always)]
pub fn xor_two_blocks_into(first: &Block, second: &Block, out: &mut Block)
    ensures value { out.new ≡ xored_words (xored_words first.now second.now) out.old }
{
    'words: for i in 0..32 {
        let new = xor(
            xor(words_from(first, 4 * i), words_from(second, 4 * i)),
            words_from(out, 4 * i),
        );
        put_words(out, 4 * i, new);
    }
}
