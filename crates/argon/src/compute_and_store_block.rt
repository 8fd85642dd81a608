//! A block of the matrix made from two others, in place (RFC 9106, section 3.2, steps 5 and 6). The
//! loans of the blocks that are read end before the block that is written is lent, so nothing is
//! copied, and the three may be any blocks.
ghost use Rattle.std.specs.Prelude.{◌≡◌, ◌+◌, ◌<◌, [], length, slice_index_or, slice_set};
ghost use Rattle.argon.specs.Argon2.{stored_block};
ghost use Rattle.argon.specs.Compression.{compression};

use crate::block::{Block, write_xor, xor_two_blocks_into};
use crate::compression::{Scratch, compression};
use crate::ticks::Ticks;

/// Stores G of the blocks at `previous` and `reference` at the place `at`, the old block xored in or not.
pub(crate) fn compute_and_store_block(
    is_xored: bool,
    blocks: &mut [Block],
    at: usize,
    previous: usize,
    reference: usize,
    scratch: &mut Scratch,
    ticks: &mut Ticks,
)
    requires at_within { at < length blocks.old }
    requires previous_within { previous < length blocks.old }
    requires reference_within { reference < length blocks.old }
    ensures value { blocks.new ≡ slice_set blocks.old at
        (stored_block is_xored (slice_index_or blocks.old at [])
        (compression (slice_index_or blocks.old previous [])
        (slice_index_or blocks.old reference []))) }
    ensures count { ticks.new ≡ ticks.old + 1 }
{
    compression(&blocks[previous], &blocks[reference], scratch, ticks);
    if is_xored {
        xor_two_blocks_into(&scratch.permuted, &scratch.xored, &mut blocks[at]);
    } else {
        write_xor(&scratch.permuted, &scratch.xored, &mut blocks[at]);
    }
}
