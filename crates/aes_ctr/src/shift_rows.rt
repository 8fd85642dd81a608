//! ShiftRows (FIPS 197, 5.1.2).
ghost use Rattle.std.specs.Prelude.{◌≡◌};
ghost use Rattle.aes_ctr.specs.Aes.{shift_rows};

use std::simd::prelude::*;

#[inline(always)]
pub(crate) fn shift_rows(state: u8x16) -> u8x16
    ensures state { result ≡ shift_rows state }
{
    state.swizzle::<16>([0, 5, 10, 15, 4, 9, 14, 3, 8, 13, 2, 7, 12, 1, 6, 11])
}
