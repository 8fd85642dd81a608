//! The Salsa20/8 core (RFC 7914, section 3), four words at a time, on the diagonals of the state.
ghost use Rattle.std.specs.Prelude.{◌≡◌, ℕ, ◌+◌, ◌<◌, slice_index};
ghost use Rattle.romix.specs.Salsa20.{column_round, quarter_round, quarter_step, row_round, salsa20_8, word_sum};
ghost use Rattle.four_words.specs.Inside.FourWords.{shuffled_words};
ghost use Rattle.romix.specs.Inside.Lanes.{words_by_diagonals, words_by_rows};

use crate::lanes::Lanes;
use crate::ticks::Ticks;
use std::simd::u32x4;

// y xor ((a + b) <<< k) in each lane: a step of the quarterround.
#[inline(always)]
fn quarter_step(y: u32x4, a: u32x4, b: u32x4, k: u32) -> u32x4
    requires low { 0 < k }
    requires high { k < 32 }
    ensures lanes { (j : ℕ) → j < 4 → slice_index result j
        ≡ quarter_step (slice_index y j) (slice_index a j) (slice_index b j) k }
{
    let sum = a + b;
    y ^ ((sum << u32x4::splat(k)) | (sum >> u32x4::splat(32 - k)))
}

// Four quarterrounds side by side, one in each lane.
#[inline(always)]
fn quarter_round(x: Lanes) -> Lanes
    ensures lanes { (j : ℕ) → j < 4
        → (slice_index result.first j, slice_index result.second j, slice_index result.third j, slice_index result.fourth j)
        ≡ quarter_round (slice_index x.first j) (slice_index x.second j) (slice_index x.third j) (slice_index x.fourth j) }
{
    let second = quarter_step(x.second, x.first, x.fourth, 7);
    let third = quarter_step(x.third, second, x.first, 9);
    let fourth = quarter_step(x.fourth, third, second, 13);
    let first = quarter_step(x.first, fourth, third, 18);
    Lanes {
        first,
        second,
        third,
        fourth,
    }
}

// The columnround: lane j has column j, from its diagonal word on.
#[inline(always)]
fn column_round(x: Lanes) -> Lanes
    ensures words { words_by_diagonals result ≡ column_round (words_by_diagonals x) }
{
    quarter_round(x)
}

// The lanes turned so that lane j has row j, from its diagonal word on, in place of column j; and back.
#[inline(always)]
fn turned(x: Lanes) -> Lanes
    ensures first { result.first ≡ x.first }
    ensures second { result.second ≡ shuffled_words x.fourth 1 2 3 0 }
    ensures third { result.third ≡ shuffled_words x.third 2 3 0 1 }
    ensures fourth { result.fourth ≡ shuffled_words x.second 3 0 1 2 }
{
    Lanes {
        first: x.first,
        second: x.fourth.rotate_elements_left::<1>(),
        third: x.third.rotate_elements_left::<2>(),
        fourth: x.second.rotate_elements_left::<3>(),
    }
}

// The rowround: lane j has row j for its quarterround.
#[inline(always)]
fn row_round(x: Lanes) -> Lanes
    ensures words { words_by_diagonals result ≡ row_round (words_by_diagonals x) }
{
    turned(quarter_round(turned(x)))
}

// The sums of two vectors, lane by lane.
#[inline(always)]
fn add(a: u32x4, b: u32x4) -> u32x4
    ensures lanes { (j : ℕ) → j < 4 → slice_index result j ≡ word_sum (slice_index a j) (slice_index b j) }
{
    a + b
}

/// The core, on words that stand by diagonals. It is the one body of the core, and counts itself.
#[inline(always)]
pub(crate) fn core_by_diagonals(x: Lanes, ticks: &mut Ticks) -> Lanes
    ensures words { words_by_diagonals result ≡ salsa20_8 (words_by_diagonals x) }
    ensures count { ticks.new ≡ ticks.old + 1 }
{
    ticks.tick();
    let mut y = x;
    'rounds: for _round in 0..4u32 {
        y = row_round(column_round(y));
    }
    Lanes {
        first: add(x.first, y.first),
        second: add(x.second, y.second),
        third: add(x.third, y.third),
        fourth: add(x.fourth, y.fourth),
    }
}

/// The core, on words that stand by rows.
#[inline(always)]
pub(crate) fn core_by_rows(x: Lanes, ticks: &mut Ticks) -> Lanes
    ensures words { words_by_rows result ≡ salsa20_8 (words_by_rows x) }
    ensures count { ticks.new ≡ ticks.old + 1 }
{
    core_by_diagonals(x.to_diagonals(), ticks).to_rows()
}

/// Replaces sixteen words by their Salsa20/8 core (RFC 7914, section 3), which is one tick. The
/// standard's 64 octets are these words, the lowest octet of each first.
pub fn salsa8(words: &mut [u32; 16], ticks: &mut Ticks)
    ensures words { words.new ≡ salsa20_8 words.old }
    ensures count { ticks.new ≡ ticks.old + 1 }
{
    core_by_rows(Lanes::load(words, 0), ticks).store(words, 0);
}
