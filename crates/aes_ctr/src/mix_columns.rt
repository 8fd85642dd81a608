//! MixColumns (FIPS 197, 5.1.3).
ghost use Rattle.std.specs.Prelude.{◌≡◌, map};
ghost use Rattle.aes_ctr.specs.Aes.{mix_columns, product};

use std::simd::prelude::*;

// xtime of each byte (4.2.1).
#[inline(always)]
fn double(bytes: u8x16) -> u8x16
    ensures doubles { result ≡ map (product 2) bytes }
{
    let carry = bytes
        .simd_ge(u8x16::splat(128))
        .select(u8x16::splat(0x1b), u8x16::splat(0));
    (bytes + bytes) ^ carry
}

// Two times a byte, three times the next one of its column, and the last two. Three times a byte is the byte and its double.
#[inline(always)]
pub(crate) fn mix_columns(state: u8x16) -> u8x16
    ensures state { result ≡ mix_columns state }
{
    let twice = double(state);
    let thrice_next = (state ^ twice).swizzle::<16>([
        1, 2, 3, 0, 5, 6, 7, 4, 9, 10, 11, 8, 13, 14, 15, 12,
    ]);
    let third = state.swizzle::<16>([2, 3, 0, 1, 6, 7, 4, 5, 10, 11, 8, 9, 14, 15, 12, 13]);
    let fourth = state.swizzle::<16>([3, 0, 1, 2, 7, 4, 5, 6, 11, 8, 9, 10, 15, 12, 13, 14]);
    (twice ^ thrice_next) ^ (third ^ fourth)
}
