//! From eight pairs of blocks to their planes, and back. Eight vectors hold bits numbered k (vector) and b (place in a byte);
//! what is wanted is bit k of vector b in place of bit b of vector k. The three binary digits of k and b change
//! places one after the other; each step exchanges bits that are 1, 2 or 4 apart in a byte between two neighbours.
ghost use Rattle.std.specs.Prelude.{◌≡◌, ◌-◌, ◌*◌, ◌/◌, ◌%◌, ◌^◌, ◌<◌, ℕ, bit_and};
ghost use Rattle.aes_ctr.specs.Planes.{bits, plane};
ghost use Rattle.aes_ctr.specs.Inside.PlaneSteps.{AreExchanged, AreLowBits, ArePlanesOfBlockPairs, MergesPlanes};

use crate::planes::Planes;
use std::simd::prelude::*;

// The bits in `low` of both, those of `second` moved up.
#[inline(always)]
fn merged_lower_bits(distance: u8, low: u8, first: u8x32, second: u8x32) -> u8x32
    requires distance { distance < 8 }
    ensures merged { MergesPlanes (λ byte. bit_and byte low)
        (λ byte. bit_and byte low * 2 ^ distance % 256) first second result }
{
    let low = u8x32::splat(low);
    (first & low) ^ ((second & low) << u8x32::splat(distance))
}

// The bits beside `low` of both, those of `first` moved down.
#[inline(always)]
fn merged_upper_bits(distance: u8, low: u8, first: u8x32, second: u8x32) -> u8x32
    requires distance { distance < 8 }
    ensures merged { MergesPlanes (λ byte. bit_and (byte / 2 ^ distance) low)
        (λ byte. bit_and byte (255 - low)) first second result }
{
    let low = u8x32::splat(low);
    ((first >> u8x32::splat(distance)) & low) ^ (second & !low)
}

// The digit of weight `distance` of the bits' numbers changes places with the lowest digit of the vectors' numbers, which
// becomes the highest: the lower bits of each two neighbours come first, and their upper bits after them.
#[inline(always)]
fn exchanged(distance: u8, low: u8, planes: Planes) -> Planes
    requires distance { distance < 8 }
    requires low { AreLowBits distance low }
    ensures exchanged { AreExchanged distance planes result }
    ensures bytes { ArePlanesOfBlockPairs planes result }
{
    let [a, b, c, d, e, f, g, h] = planes;
    [
        merged_lower_bits(distance, low, a, b),
        merged_lower_bits(distance, low, c, d),
        merged_lower_bits(distance, low, e, f),
        merged_lower_bits(distance, low, g, h),
        merged_upper_bits(distance, low, a, b),
        merged_upper_bits(distance, low, c, d),
        merged_upper_bits(distance, low, e, f),
        merged_upper_bits(distance, low, g, h),
    ]
}

// Eight pairs as planes, or planes as pairs: it is its own inverse.
#[inline(always)]
pub(crate) fn transposed(planes: Planes) -> Planes
    ensures transposed { (b k : ℕ) → b < 8 → k < 8 → bits b (plane result k) ≡ bits k (plane planes b) }
    ensures bytes { ArePlanesOfBlockPairs planes result }
{
    exchanged(4, 0x0f, exchanged(2, 0x33, exchanged(1, 0x55, planes)))
}
