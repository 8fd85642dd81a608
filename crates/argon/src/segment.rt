//! The blocks of a segment and of a slice (RFC 9106, section 3.2, steps 5 and 6, and section 3.4).
ghost use Rattle.std.specs.Prelude.{◌≡◌, ℕ, ◌+◌, ◌*◌, ◌/◌, ◌%◌, ◌<◌, ◌^◌, List, length, true, false, slice_index, slice_set};
ghost use Rattle.argon.specs.Counts.{computed_block_count, column_work, first_index, segment_work, slice_work};
ghost use Rattle.argon.specs.Filling.{Filling};
ghost use Rattle.argon.specs.Parameters.{Parameters, block_count};
ghost use Rattle.argon.specs.Reference.{address_block};
ghost use Rattle.argon.specs.Inside.Segment.{AreOfMatrix, HasAddressesOfSegment, IsColumnToMake, IsInMatrix, IsInSameMatrix, IsSegmentOfParameters, StandsAt, index_in_segment_after_parts, with_column_made};
ghost use Rattle.argon.specs.Woven.{all_blocks_in_slice_progress, with_next_slice};
ghost use Rattle.argon.specs.Inside.NextSlice.{AreCountsOfBlocksLeft, IsNextSlice};

use crate::addresses::prepare_addresses;
use crate::block::Block;
use crate::compression::Scratch;
use crate::compute_and_store_block::compute_and_store_block;
use crate::params::Params;
use crate::places::{previous_column, reference_place};
use crate::ticks::Ticks;

/// One lane's part of a slice.
#[derive(Drop)]
pub(crate) struct Segment {
    // How many lanes there are.
    pub(crate) lanes: u32,
    // How many columns a segment has.
    pub(crate) len: u32,
    // All three from 0.
    pub(crate) pass: u32,
    pub(crate) lane: u32,
    pub(crate) slice: u32,
    // Whether its words J come from the position alone.
    pub(crate) is_independent: bool,
    // Whether the old blocks of its places are xored in.
    pub(crate) is_xored: bool,
}

impl Segment {
    /// A lane's segment of a slice.
    pub(crate) fn new(params: &Params, pass: u32, lane: u32, slice: u32) -> Segment
        requires slices { slice < 4 }
        requires known { lane < params.now.lanes }
        ensures valid { IsInMatrix result }
        ensures is_of { IsSegmentOfParameters params.now result }
        ensures pass { result.pass ≡ pass }
        ensures lane { result.lane ≡ lane }
        ensures slice { result.slice ≡ slice }
    {
        Segment {
            lanes: params.lanes(),
            len: params.segment_len(),
            pass,
            lane,
            slice,
            is_independent: params.is_independent(pass, slice),
            is_xored: params.is_xored_in(pass),
        }
    }
}

// The word J of a column.
fn reference_word(is_independent: bool, addresses: &Block, index: u32, previous: &Block) -> u64
    ensures independent { is_independent ≡ true → result ≡ slice_index addresses.now (index % 128) }
    ensures dependent { is_independent ≡ false → result ≡ slice_index previous.now 0 }
{
    if is_independent {
        addresses[(index % 128) as usize]
    } else {
        previous[0]
    }
}

// Where a column of a lane stands in the buffer, which has the lanes one after the other.
fn matrix_index_of_column(segment: &Segment, lane: u32, column: usize) -> usize
    requires place { IsInSameMatrix segment.now lane column }
    ensures place { StandsAt segment.now lane column result }
{
    lane as usize * (4 * segment.len as usize) + column
}

// Makes the block of one column.
fn fill_block_at_column(
    blocks: &mut [Block],
    segment: &Segment,
    index: u32,
    addresses: &Block,
    scratch: &mut Scratch,
    ticks: &mut Ticks,
)
    requires column { IsColumnToMake segment.now index }
    requires size { AreOfMatrix segment.now blocks.old }
    ensures count { ticks.new ≡ ticks.old + 1 }
    ensures value { (parameters : Parameters) → IsSegmentOfParameters parameters segment.now
        → (segment.now.is_independent ≡ true
        → addresses.now
        ≡ address_block parameters segment.now.pass segment.now.lane segment.now.slice (index / 128 + 1))
        → blocks.new ≡ with_column_made parameters segment.now index blocks.old }
{
    let lane_len = 4 * segment.len as usize;
    let column = (segment.slice * segment.len + index) as usize;
    let before = previous_column(lane_len, column);
    let previous = matrix_index_of_column(segment, segment.lane, before);
    let j = reference_word(segment.is_independent, addresses, index, &blocks[previous]);
    let named = reference_place(segment, index, j);
    let reference = matrix_index_of_column(segment, named.lane, named.column as usize);
    let place = matrix_index_of_column(segment, segment.lane, column);
    compute_and_store_block(
        segment.is_xored,
        blocks,
        place,
        previous,
        reference,
        scratch,
        ticks,
    );
}

/// The index of a segment's first column that comes from other blocks.
pub(crate) fn first_index(pass: u32, slice: u32) -> u32
    ensures value { result ≡ first_index pass slice }
{
    if pass == 0 && slice == 0 { 2 } else { 0 }
}

/// The index up to which a segment is made after so many parts of 128 columns.
pub(crate) fn segment_index_after_parts(segment: &Segment, parts: u32) -> u32
    requires in_32_bits { 128 * parts < 2 ^ 32 }
    ensures value { result ≡ index_in_segment_after_parts segment.now parts }
{
    first_index(segment.pass, segment.slice).max((128 * parts).min(segment.len))
}

/// Makes the block of a segment's next column, whose index is given, and before it the address
/// block that its word J stands in, where that is not the one of the column before.
pub(crate) fn fill_next_block(
    blocks: &mut [Block],
    params: &Params,
    segment: &Segment,
    index: u32,
    addresses: &mut Block,
    scratch: &mut Scratch,
    ticks: &mut Ticks,
)
    requires column { IsColumnToMake segment.now index }
    requires is_of { IsSegmentOfParameters params.now segment.now }
    requires size { AreOfMatrix segment.now blocks.old }
    requires addresses { HasAddressesOfSegment params.now segment.now index addresses.old }
    ensures addresses { HasAddressesOfSegment params.now segment.now (index + 1) addresses.new }
    ensures value { blocks.new ≡ with_column_made params.now segment.now index blocks.old }
    ensures count { ticks.new ≡ ticks.old + column_work params.now segment.now.pass segment.now.slice index }
{
    // The first column of a part after the first; where the addressing is dependent, nothing is made.
    if index > 0 && index % 128 == 0 {
        prepare_addresses(params, segment, index / 128, addresses, scratch, ticks);
    }
    fill_block_at_column(blocks, segment, index, addresses, scratch, ticks);
}

// Makes the blocks of a segment.
fn fill_segment(
    blocks: &mut [Block],
    params: &Params,
    segment: &Segment,
    scratch: &mut Scratch,
    ticks: &mut Ticks,
)
    requires valid { IsInMatrix segment.now }
    requires is_of { IsSegmentOfParameters params.now segment.now }
    requires size { AreOfMatrix segment.now blocks.old }
    ensures size { length blocks.new ≡ length blocks.old }
    ensures count { ticks.new ≡ ticks.old + segment_work params.now segment.now.pass segment.now.slice }
    ensures made { (matrix : Filling) (left : List ℕ)
        → IsNextSlice matrix params.now segment.now.pass segment.now.slice
        → AreCountsOfBlocksLeft params.now segment.now.pass segment.now.slice left
        → slice_index left segment.now.lane ≡ computed_block_count params.now segment.now.pass segment.now.slice
        → blocks.old ≡ all_blocks_in_slice_progress matrix left
        → blocks.new ≡ all_blocks_in_slice_progress matrix (slice_set left segment.now.lane 0) }
{
    let mut addresses = [0; 128];
    prepare_addresses(params, segment, 0, &mut addresses, scratch, ticks);
    for index in first_index(segment.pass, segment.slice)..segment.len {
        fill_next_block(
            blocks,
            params,
            segment,
            index,
            &mut addresses,
            scratch,
            ticks,
        );
    }
}

/// Makes the blocks of a slice, lane by lane.
pub(crate) fn fill_slice(
    blocks: &mut [Block],
    params: &Params,
    pass: u32,
    slice: u32,
    ticks: &mut Ticks,
)
    requires slices { slice < 4 }
    requires size { length blocks.old ≡ block_count params.now }
    ensures size { length blocks.new ≡ length blocks.old }
    ensures count { ticks.new ≡ ticks.old + slice_work params.now pass slice }
    ensures made { (matrix : Filling) → IsNextSlice matrix params.now pass slice
        → blocks.old ≡ matrix.blocks → blocks.new ≡ (with_next_slice matrix).blocks }
{
    let mut scratch = Scratch::new();
    for lane in 0..params.lanes() {
        fill_segment(
            blocks,
            params,
            &Segment::new(params, pass, lane, slice),
            &mut scratch,
            ticks,
        );
    }
}
