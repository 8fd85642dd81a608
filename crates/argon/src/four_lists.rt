//! Lists of sixteen words, one in a vector, and four of them side by side.
ghost use Rattle.std.specs.Prelude.{◌≡◌};
ghost use Rattle.four_words.specs.Inside.FourWords.{sixteen_words};
ghost use Rattle.argon.specs.Inside.FourWords.{list_at, list_words_in_vector};

use std::simd::{u64x4, u64x16};

/// Four lists of sixteen words, one in each vector; or side by side, where each vector has four words of the first
/// list, then those of the second, of the third and of the fourth.
pub(crate) type FourLists = (u64x16, u64x16, u64x16, u64x16);

/// The words of four vectors, one vector after another.
#[inline(always)]
pub(crate) fn beside(one: u64x4, two: u64x4, three: u64x4, four: u64x4) -> u64x16
    ensures value { result ≡ sixteen_words one two three four }
{
    let first = one.shuffle::<8>(two, [0, 1, 2, 3, 4, 5, 6, 7]);
    let last = three.shuffle::<8>(four, [0, 1, 2, 3, 4, 5, 6, 7]);
    first.shuffle::<16>(last, [0, 1, 2, 3, 4, 5, 6, 7, 8, 9, 10, 11, 12, 13, 14, 15])
}

/// Four words of a vector at a time, from the first on.
#[inline(always)]
pub(crate) fn quarters(vector: u64x16) -> (u64x4, u64x4, u64x4, u64x4)
    ensures value { result ≡ (list_words_in_vector 0 vector, list_words_in_vector 1 vector, list_words_in_vector 2 vector, list_words_in_vector 3 vector) }
{
    (
        vector.extract::<0, 4>(),
        vector.extract::<4, 4>(),
        vector.extract::<8, 4>(),
        vector.extract::<12, 4>(),
    )
}

/// From a list in each vector to lists side by side, and back.
#[inline(always)]
pub(crate) fn transposed(lists: FourLists) -> FourLists
    ensures value { result ≡ (list_at 0 lists, list_at 1 lists, list_at 2 lists, list_at 3 lists) }
{
    let (a0, a1, a2, a3) = quarters(lists.0);
    let (b0, b1, b2, b3) = quarters(lists.1);
    let (c0, c1, c2, c3) = quarters(lists.2);
    let (d0, d1, d2, d3) = quarters(lists.3);
    (
        beside(a0, b0, c0, d0),
        beside(a1, b1, c1, d1),
        beside(a2, b2, c2, d2),
        beside(a3, b3, c3, d3),
    )
}
