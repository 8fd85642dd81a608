//! The tag from the last column (RFC 9106, section 3.2, steps 7 and 8).
ghost use Rattle.std.specs.Prelude.{◌≡◌, ◌+◌, ◌-◌, ◌*◌, ◌<◌, ◌≤◌, ◌^◌, length, map, slice_index_or, []};
ghost use Rattle.std.specs.List.{range_with_len};
ghost use Rattle.blake.specs.LongHash.{long_hash};
ghost use Rattle.blake.specs.Words.{bytes_of_words};
ghost use Rattle.argon.specs.Argon2.{xor_of_column_blocks};
ghost use Rattle.four_words.specs.Words.{xored_words};

use crate::block::Block;
use blake::long_hash;
use byteorder::{ByteOrder, LittleEndian};

// Xors a block into another.
fn xor_into(into: &mut Block, other: &Block)
    ensures value { into.new ≡ xored_words into.old other.now }
{
    for k in 0..128 {
        into[k] ^= other[k];
    }
}

/// C, the xor of the last column's blocks (step 7).
pub(crate) fn xor_last_column(blocks: &[Block], lanes: u32, lane_len: u32) -> Block
    requires at_least_1 { 1 ≤ lane_len }
    requires small { lanes * lane_len < 2 ^ 32 }
    requires size { length blocks.now ≡ lanes * lane_len }
    ensures value { result ≡ xor_of_column_blocks
        (map (λ lane. slice_index_or blocks.now (lane * lane_len + (lane_len - 1)) [])
        (range_with_len 0 lanes)) }
{
    let mut last = [0; 128];
    for lane in 0..lanes {
        xor_into(
            &mut last,
            &blocks[(lane * lane_len + (lane_len - 1)) as usize],
        );
    }
    last
}

/// Writes the tag: H' of C (step 8).
pub(crate) fn write_tag(last: &Block, out: &mut [u8])
    requires at_least_1 { 1 ≤ length out.old }
    requires short { length out.old ≤ 4096 }
    ensures value { out.new ≡ long_hash (length out.old) (bytes_of_words last.now) }
{
    let mut bytes = [0u8; 1024];
    LittleEndian::write_u64_into(last, &mut bytes);
    long_hash(&[&bytes[..]], out);
}
