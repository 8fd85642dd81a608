//! Sixteen words in four vectors: how they are read, written, xored and turned.
ghost use Rattle.std.specs.Prelude.{◌≡◌, ◌+◌, ◌*◌, ◌≤◌, ◌++◌, length, take, drop};
ghost use Rattle.std.specs.Simd.Lanes.{put_chunk};
ghost use Rattle.four_words.specs.Words.{xored_words};
ghost use Rattle.romix.specs.BlockMix.{block_at};
ghost use Rattle.four_words.specs.Inside.FourWords.{four_words};
ghost use Rattle.romix.specs.Inside.Lanes.{words_by_diagonals, words_by_rows};

use std::simd::u32x4;

/// The sixteen words of a block, in four vectors. Each vector has a row of the core's state, four
/// words in their own order, or a diagonal: the words 0 5 10 15, 4 9 14 3, 8 13 2 7, 12 1 6 11.
#[derive(Clone, Copy)]
pub(crate) struct Lanes {
    pub(crate) first: u32x4,
    pub(crate) second: u32x4,
    pub(crate) third: u32x4,
    pub(crate) fourth: u32x4,
}

// Writes four words from a place on.
#[inline(always)]
fn put_four(words: &mut [u32], at: usize, four: u32x4)
    requires room { at + 4 ≤ length words.old }
    ensures words { words.new ≡ put_chunk at words.old (four_words four) }
{
    four.copy_to_slice(&mut words[at..]);
}

// The xor of two vectors.
#[inline(always)]
fn xor_vectors(x: u32x4, y: u32x4) -> u32x4
    ensures words { four_words result ≡ xored_words (four_words x) (four_words y) }
{
    x ^ y
}

impl Lanes {
    /// Block `i` of a row.
    #[inline(always)]
    pub(crate) fn load(row: &[u32], i: usize) -> Lanes
        requires room { 16 * (i + 1) ≤ length row.now }
        ensures words { words_by_rows result ≡ block_at row.now i }
    {
        let at = 16 * i;
        Lanes {
            first: u32x4::from_slice(&row[at..]),
            second: u32x4::from_slice(&row[at + 4..]),
            third: u32x4::from_slice(&row[at + 8..]),
            fourth: u32x4::from_slice(&row[at + 12..]),
        }
    }

    /// Writes the words as block `i` of a row.
    #[inline(always)]
    pub(crate) fn store(self, row: &mut [u32], i: usize)
        requires room { 16 * (i + 1) ≤ length row.old }
        ensures front { take (16 * (i + 1)) row.new ≡ take (16 * i) row.old ++ words_by_rows self }
        ensures rest { drop (16 * (i + 1)) row.new ≡ drop (16 * (i + 1)) row.old }
    {
        let at = 16 * i;
        put_four(row, at, self.first);
        put_four(row, at + 4, self.second);
        put_four(row, at + 8, self.third);
        put_four(row, at + 12, self.fourth);
    }

    /// The words xored with those of `other`.
    #[inline(always)]
    pub(crate) fn xor(self, other: Lanes) -> Lanes
        ensures rows { words_by_rows result ≡ xored_words (words_by_rows self) (words_by_rows other) }
        ensures diagonals { words_by_diagonals result
            ≡ xored_words (words_by_diagonals self) (words_by_diagonals other) }
    {
        Lanes {
            first: xor_vectors(self.first, other.first),
            second: xor_vectors(self.second, other.second),
            third: xor_vectors(self.third, other.third),
            fourth: xor_vectors(self.fourth, other.fourth),
        }
    }

    /// From rows to diagonals.
    #[inline(always)]
    pub(crate) fn to_diagonals(self) -> Lanes
        ensures words { words_by_diagonals result ≡ words_by_rows self }
    {
        let Lanes {
            first,
            second,
            third,
            fourth,
        } = self;
        let one = first.shuffle::<4>(second, [0, 5, 2, 7]);
        let two = second.shuffle::<4>(third, [0, 5, 2, 7]);
        let three = third.shuffle::<4>(fourth, [0, 5, 2, 7]);
        let four = fourth.shuffle::<4>(first, [0, 5, 2, 7]);
        Lanes {
            first: one.shuffle::<4>(three, [0, 1, 6, 7]),
            second: two.shuffle::<4>(four, [0, 1, 6, 7]),
            third: three.shuffle::<4>(one, [0, 1, 6, 7]),
            fourth: four.shuffle::<4>(two, [0, 1, 6, 7]),
        }
    }

    /// From diagonals to rows: the same turn, with two vectors in each other's place.
    #[inline(always)]
    pub(crate) fn to_rows(self) -> Lanes
        ensures words { words_by_rows result ≡ words_by_diagonals self }
    {
        self.mirrored().to_diagonals().mirrored()
    }

    // The second vector and the fourth change places.
    #[inline(always)]
    fn mirrored(self) -> Lanes
        ensures first { result.first ≡ self.first }
        ensures second { result.second ≡ self.fourth }
        ensures third { result.third ≡ self.third }
        ensures fourth { result.fourth ≡ self.second }
    {
        Lanes {
            first: self.first,
            second: self.fourth,
            third: self.third,
            fourth: self.second,
        }
    }
}
