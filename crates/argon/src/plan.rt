//! The places that a segment of independent addressing reads, from its position alone (RFC 9106,
//! section 3.4.1.2).
ghost use Rattle.std.specs.Prelude.{◌≡◌, ℕ, ◌+◌, ◌*◌, ◌<◌, ◌≤◌, true, length};
ghost use Rattle.argon.specs.Counts.{address_block_count, first_index};
ghost use Rattle.argon.specs.Parameters.{segment_len};
ghost use Rattle.argon.specs.Plan.{AreMadeAlongPlan, AreMadeAsPlanned, entry_at, independent_reference_place};
ghost use Rattle.argon.specs.Inside.Planning.{PlansPartOfReferences};
ghost use Rattle.argon.specs.Reference.{is_independent};
ghost use Rattle.argon.specs.Inside.Segment.{IsInMatrix, index_in_segment_after_parts};

use crate::addresses::{address_block_count, prepare_addresses};
use crate::block::Block;
use crate::compression::Scratch;
use crate::params::Params;
use crate::places::{Place, reference_place};
use crate::segment::{Segment, segment_index_after_parts};
use crate::ticks::Ticks;

// Plans a part: the columns whose words J stand in one address block.
fn plan_columns_of_address_block(segment: &Segment, part: u32, addresses: &Block, out: &mut [Place])
    requires valid { IsInMatrix segment.now }
    requires parts { 128 * part < segment.now.len }
    requires size { length out.old ≡ segment.now.len }
    ensures size { length out.new ≡ length out.old }
    ensures planned { PlansPartOfReferences segment.now addresses.now out.old out.new (index_in_segment_after_parts segment.now part)
        (index_in_segment_after_parts segment.now (part + 1)) }
{
    let from = segment_index_after_parts(segment, part);
    let to = segment_index_after_parts(segment, part + 1);
    for index in from..to {
        let j = addresses[(index % 128) as usize];
        out[index as usize] = reference_place(segment, index, j);
    }
}

/// Writes, for each column of a segment with independent addressing, the place of the block that it
/// reads beside the previous one (RFC 9106, sections 3.4.1.2 and 3.4.2). No password, salt or block
/// is read: the places follow from the parameters and the position, and the blocks of the segment
/// are G along them.
///
/// Pass, lane and slice count from 0, and `out` has one entry for each column of the segment. In
/// pass 0, slice 0 the first two entries stay as they were, since those columns come from H0. It
/// takes two block functions for each 128 columns begun.
pub fn plan_segment(
    params: &Params,
    pass: u32,
    lane: u32,
    slice: u32,
    out: &mut [Place],
    ticks: &mut Ticks,
)
    requires passes { pass < params.now.passes }
    requires lanes { lane < params.now.lanes }
    requires slices { slice < 4 }
    requires independent { is_independent params.now pass slice ≡ true }
    requires size { length out.old ≡ segment_len params.now }
    ensures size { length out.new ≡ length out.old }
    ensures planned { (index : ℕ) → first_index pass slice ≤ index
        → index < segment_len params.now
        → entry_at out.new index ≡ independent_reference_place params.now pass lane slice index }
    ensures made { AreMadeAsPlanned params.now pass lane slice }
    ensures along { AreMadeAlongPlan params.now pass lane slice }
    ensures kept { (index : ℕ) → index < first_index pass slice
        → entry_at out.new index ≡ entry_at out.old index }
    ensures count { ticks.new ≡ ticks.old + 2 * address_block_count (segment_len params.now) }
{
    let segment = Segment::new(params, pass, lane, slice);
    let mut scratch = Scratch::new();
    let mut addresses = [0; 128];
    for part in 0..address_block_count(segment.len) {
        prepare_addresses(params, &segment, part, &mut addresses, &mut scratch, ticks);
        plan_columns_of_address_block(&segment, part, &addresses, out);
    }
}
