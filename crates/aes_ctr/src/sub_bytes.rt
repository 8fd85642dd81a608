//! SubBytes (FIPS 197, 5.1.1) on sixteen bytes side by side: each of the sixteen rows of the S-box is looked up by
//! the four low bits of the bytes, and the four high bits choose among the rows.
ghost use Rattle.std.specs.Prelude.{◌≡◌, ◌*◌, ◌<◌, ℕ, map};
ghost use Rattle.aes_ctr.specs.Aes.{sub_byte, sub_bytes};
ghost use Rattle.aes_ctr.specs.Inside.TableParts.{choice, s_box_part_entry};

use crate::s_box::row;
use std::simd::prelude::*;

// `set` where that bit of a byte is set, else `clear`.
#[inline(always)]
pub(crate) fn select_by_bit(bit: u8, bytes: u8x16, set: u8x16, clear: u8x16) -> u8x16
    ensures choice { (f g : ℕ → ℕ) → set ≡ map f bytes → clear ≡ map g bytes → result ≡ map (choice bit f g) bytes }
{
    (bytes & u8x16::splat(bit))
        .simd_eq(u8x16::splat(bit))
        .select(set, clear)
}

// The entries of bytes that lie in the n-th sixteenth of the table; the others come out as some entry of it.
#[inline(always)]
fn s_box_sixteenth_lookup(n: usize, bytes: u8x16) -> u8x16
    requires part { n < 16 }
    ensures entries { result ≡ map (s_box_part_entry 16 n) bytes }
{
    row(n).swizzle_dyn(bytes & u8x16::splat(15))
}

// Two sixteenths, chosen by the bit above theirs; and so on up to the whole table.
#[inline(always)]
fn s_box_eighth_lookup(n: usize, bytes: u8x16) -> u8x16
    requires part { n < 8 }
    ensures entries { result ≡ map (s_box_part_entry 32 n) bytes }
{
    select_by_bit(
        16,
        bytes,
        s_box_sixteenth_lookup(2 * n + 1, bytes),
        s_box_sixteenth_lookup(2 * n, bytes),
    )
}

#[inline(always)]
fn s_box_quarter_lookup(n: usize, bytes: u8x16) -> u8x16
    requires part { n < 4 }
    ensures entries { result ≡ map (s_box_part_entry 64 n) bytes }
{
    select_by_bit(
        32,
        bytes,
        s_box_eighth_lookup(2 * n + 1, bytes),
        s_box_eighth_lookup(2 * n, bytes),
    )
}

#[inline(always)]
fn s_box_half_lookup(n: usize, bytes: u8x16) -> u8x16
    requires part { n < 2 }
    ensures entries { result ≡ map (s_box_part_entry 128 n) bytes }
{
    select_by_bit(
        64,
        bytes,
        s_box_quarter_lookup(2 * n + 1, bytes),
        s_box_quarter_lookup(2 * n, bytes),
    )
}

#[inline(always)]
pub(crate) fn sub_bytes(state: u8x16) -> u8x16
    ensures state { result ≡ sub_bytes state }
{
    select_by_bit(
        128,
        state,
        s_box_half_lookup(1, state),
        s_box_half_lookup(0, state),
    )
}
