//! Eight pairs of blocks side by side: bit b of lane j of plane k is bit k of byte j of pair b.
ghost use Rattle.std.specs.Prelude.{◌≡◌, ◌<◌, ◌++◌, ℕ, List, bit_xor};
ghost use Rattle.std.specs.Simd.Lanes.{zip2};
ghost use Rattle.aes_ctr.specs.Planes.{BitPlanesHoldBytes, plane};

use std::simd::prelude::*;

pub(crate) type Planes = [u8x32; 8];

// Two blocks as a pair.
#[inline(always)]
pub(crate) fn joined(first: u8x16, second: u8x16) -> u8x32
    ensures pair { result ≡ first ++ second }
{
    first.shuffle::<32>(
        second,
        [
            0, 1, 2, 3, 4, 5, 6, 7, 8, 9, 10, 11, 12, 13, 14, 15, 16, 17, 18, 19, 20, 21, 22, 23,
            24, 25, 26, 27, 28, 29, 30, 31,
        ],
    )
}

#[inline(always)]
pub(crate) fn xor_planes(left: Planes, right: Planes) -> Planes
    ensures held { (b : ℕ) (first second : List ℕ) → BitPlanesHoldBytes b left first → BitPlanesHoldBytes b right second
        → BitPlanesHoldBytes b result (zip2 bit_xor first second) }
{
    let [a0, a1, a2, a3, a4, a5, a6, a7] = left;
    let [b0, b1, b2, b3, b4, b5, b6, b7] = right;
    [
        a0 ^ b0,
        a1 ^ b1,
        a2 ^ b2,
        a3 ^ b3,
        a4 ^ b4,
        a5 ^ b5,
        a6 ^ b6,
        a7 ^ b7,
    ]
}

// What `step` makes of each plane.
#[inline(always)]
pub(crate) fn each_plane<F: Fn(u8x32) -> u8x32>(planes: Planes, step: F) -> Planes
    requires callable { F.IsAlwaysCallable step }
    ensures steps { (k : ℕ) → k < 8 → F.post step (plane planes k) (plane result k) }
{
    let [a, b, c, d, e, f, g, h] = planes;
    [
        step(a),
        step(b),
        step(c),
        step(d),
        step(e),
        step(f),
        step(g),
        step(h),
    ]
}
