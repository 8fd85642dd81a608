//! The address blocks of independent addressing (RFC 9106, section 3.4.1.2).
ghost use Rattle.std.specs.Prelude.{◌≡◌, ◌+◌, ◌/◌, ◌<◌, ◌^◌, true};
ghost use Rattle.argon.specs.Counts.{address_block_count, address_work};
ghost use Rattle.argon.specs.Reference.{address_block};

use crate::block::{Block, write_xor};
use crate::compression::{Scratch, compression};
use crate::params::Params;
use crate::segment::Segment;
use crate::ticks::Ticks;

/// How many address blocks a segment of so many columns needs: each has the words J of 128 columns,
/// one part.
pub(crate) fn address_block_count(segment_len: u32) -> u32
    ensures value { result ≡ address_block_count segment_len }
{
    segment_len.div_ceil(128)
}

/// Makes the address block of a part, counted from 0, where the addressing of the segment is
/// independent: G(0, G(0, Z)).
#[tactic(auto, unfolding(crate::specs::Reference::address_block))]
pub(crate) fn prepare_addresses(
    params: &Params,
    segment: &Segment,
    part: u32,
    addresses: &mut Block,
    scratch: &mut Scratch,
    ticks: &mut Ticks,
)
    requires parts { part < 2 ^ 31 }
    ensures value { segment.now.is_independent ≡ true
        → addresses.new ≡ address_block params.now segment.now.pass segment.now.lane segment.now.slice (part + 1) }
    ensures count { ticks.new ≡ ticks.old + address_work segment.now.is_independent 1 }
{
    if !segment.is_independent {
        return;
    }
    let zero = [0; 128];
    let mut input = [0; 128];
    input[0] = segment.pass as u64;
    input[1] = segment.lane as u64;
    input[2] = segment.slice as u64;
    input[3] = params.blocks() as u64;
    input[4] = params.passes() as u64;
    input[5] = params.kind().number() as u64;
    input[6] = part as u64 + 1;
    compression(&zero, &input, scratch, ticks);
    write_xor(&scratch.permuted, &scratch.xored, &mut input);
    compression(&zero, &input, scratch, ticks);
    write_xor(&scratch.permuted, &scratch.xored, addresses);
}
