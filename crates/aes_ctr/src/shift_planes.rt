//! ShiftRows (FIPS 197, 5.1.2) on planes.
ghost use Rattle.std.specs.Prelude.{◌≡◌, ℕ};
ghost use Rattle.aes_ctr.specs.Aes.{shift_rows};
ghost use Rattle.aes_ctr.specs.Inside.PlaneSteps.{AppliesToBothBlocks, applied_to_both_blocks};

use crate::planes::{Planes, each_plane, joined};
use crate::shift_rows::shift_rows;
use std::simd::prelude::*;

#[inline(always)]
fn shifted_rows(plane: u8x32) -> u8x32
    ensures rows { result ≡ applied_to_both_blocks shift_rows plane }
{
    joined(
        shift_rows(plane.extract::<0, 16>()),
        shift_rows(plane.extract::<16, 16>()),
    )
}

// ShiftRows moves whole bytes, so each plane moves as a pair of blocks does.
#[inline(always)]
pub(crate) fn shift_planes(planes: Planes) -> Planes
    ensures held { (b : ℕ) → AppliesToBothBlocks b shift_rows planes result }
{
    each_plane(planes, shifted_rows)
}
