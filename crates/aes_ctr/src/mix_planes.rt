//! MixColumns (FIPS 197, 5.1.3) on planes.
ghost use Rattle.std.specs.Prelude.{◌≡◌, ℕ, List, map};
ghost use Rattle.aes_ctr.specs.Aes.{mix_columns, product};
ghost use Rattle.aes_ctr.specs.Planes.{BitPlanesHoldBytes};
ghost use Rattle.aes_ctr.specs.Inside.PlaneSteps.{AppliesToBothBlocks, IsBlockPair, applied_to_both_blocks, row_below_in_plane};

use crate::planes::{Planes, each_plane, xor_planes};
use std::simd::prelude::*;

// The byte of the next row, in the place of each byte of a column.
#[inline(always)]
fn row_below_in_plane(plane: u8x32) -> u8x32
    ensures rows { result ≡ applied_to_both_blocks row_below_in_plane plane }
{
    plane.swizzle::<32>([
        1, 2, 3, 0, 5, 6, 7, 4, 9, 10, 11, 8, 13, 14, 15, 12, 17, 18, 19, 16, 21, 22, 23, 20, 25,
        26, 27, 24, 29, 30, 31, 28,
    ])
}

// The next rows of all blocks.
#[inline(always)]
fn row_below_planes(planes: Planes) -> Planes
    ensures held { (b : ℕ) → AppliesToBothBlocks b row_below_in_plane planes result }
{
    each_plane(planes, row_below_in_plane)
}

// xtime of each byte (4.2.1): each bit goes one plane up, and the highest makes the bits of 0x1b.
#[inline(always)]
fn double_planes(planes: Planes) -> Planes
    ensures held { (b : ℕ) (pair : List ℕ) → IsBlockPair pair → BitPlanesHoldBytes b planes pair → BitPlanesHoldBytes b result (map (product 2) pair) }
{
    let [a, b, c, d, e, f, g, h] = planes;
    [h, a ^ h, b, c ^ h, d ^ h, e, f, g]
}

// Two times the sum of a byte and the next one of its column, that next one, and the last two.
#[inline(always)]
pub(crate) fn mix_planes(planes: Planes) -> Planes
    ensures held { (b : ℕ) → AppliesToBothBlocks b mix_columns planes result }
{
    let next = row_below_planes(planes);
    let pairs = xor_planes(planes, next);
    let last = row_below_planes(row_below_planes(pairs));
    xor_planes(double_planes(pairs), xor_planes(next, last))
}
