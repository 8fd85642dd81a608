//! Which block a word J names (RFC 9106, section 3.4.2).
ghost use Rattle.std.specs.Prelude.{◌≡◌, ℕ, ◌+◌, ◌-◌, ◌*◌, ◌/◌, ◌%◌, ◌^◌, ◌<◌, ◌≤◌, ◌&&◌, length, slice_index, nat_eq, if◌then◌else◌};
ghost use Rattle.argon.specs.Counts.{first_index};
ghost use Rattle.argon.specs.Inside.Places.{reference_set_start, reference_set_len, candidate_count, IsAfterFirstTwo, LaneLengthFitsU32};
ghost use Rattle.argon.specs.Inside.Segment.{IsInMatrix, place_by_word};
ghost use Rattle.argon.specs.Reference.{reference_set, relative_place};

use crate::segment::Segment;

/// A place of the matrix: the lane i and the column j of the block B\[i\]\[j\] (RFC 9106, section
/// 3.2).
#[derive(Clone, Copy, Debug, PartialEq, Eq)]
pub struct Place {
    /// The lane, 0 to p-1.
    pub lane: u32,
    /// The column, from 0; a lane has m'/p of them.
    pub column: u32,
}

// The place in a set of so many columns that J 1 names.
fn relative_place(len: u32, j1: u32) -> u32
    requires at_least_1 { 0 < len }
    ensures value { result ≡ relative_place len j1 }
    ensures within { result < len }
{
    // x and y are the standard's
    let x = (j1 as u64 * j1 as u64) >> 32;
    let y = (len as u64 * x) >> 32;
    (len as u64 - 1 - y) as u32
}

// How many columns of a lane stand in finished segments.
fn finished_column_count(segment_len: u32, pass: u32, slice: u32) -> u32
    requires short { LaneLengthFitsU32 segment_len }
    requires slices { slice < 4 }
    ensures value { result ≡ candidate_count segment_len pass slice 0 }
{
    if pass == 0 {
        slice * segment_len
    } else {
        3 * segment_len
    }
}

// |W|.
fn reference_set_len(segment_len: u32, pass: u32, slice: u32, index: u32, is_own: bool) -> u32
    requires long { 2 ≤ segment_len }
    requires short { LaneLengthFitsU32 segment_len }
    requires slices { slice < 4 }
    requires indices { index < segment_len }
    requires first { IsAfterFirstTwo pass slice index is_own }
    ensures value { result ≡ reference_set_len segment_len pass slice index is_own }
{
    let finished = finished_column_count(segment_len, pass, slice);
    if is_own {
        finished + index - 1
    } else if index == 0 {
        finished - 1
    } else {
        finished
    }
}

// The column that W begins with.
fn reference_set_start(segment_len: u32, pass: u32, slice: u32) -> u32
    requires long { 2 ≤ segment_len }
    requires short { LaneLengthFitsU32 segment_len }
    requires slices { slice < 4 }
    ensures value { result ≡ reference_set_start segment_len pass slice % (4 * segment_len) }
{
    if pass == 0 {
        0
    } else if slice == 3 {
        0
    } else {
        (slice + 1) * segment_len
    }
}

// A sum below twice the length of a lane, around its end.
fn wrapped(sum: u64, len: u32) -> u32
    requires once { sum < 2 * len }
    ensures value { result ≡ sum % len }
{
    if sum < len as u64 {
        sum as u32
    } else {
        (sum - len as u64) as u32
    }
}

// z, the column that J 1 names, in a lane of four segments of that length.
fn reference_column(
    segment_len: u32,
    pass: u32,
    slice: u32,
    index: u32,
    is_own: bool,
    j1: u32,
) -> u32
    requires long { 2 ≤ segment_len }
    requires short { LaneLengthFitsU32 segment_len }
    requires slices { slice < 4 }
    requires indices { index < segment_len }
    requires first { IsAfterFirstTwo pass slice index is_own }
    ensures value { let columns = reference_set segment_len pass slice index is_own in
        result ≡ slice_index columns (relative_place (length columns) j1) % (4 * segment_len) }
    ensures within { result < 4 * segment_len }
{
    let place = relative_place(
        reference_set_len(segment_len, pass, slice, index, is_own),
        j1,
    );
    let start = reference_set_start(segment_len, pass, slice);
    wrapped(start as u64 + place as u64, 4 * segment_len)
}

/// The column before one, around the end of the lane.
pub(crate) fn previous_column(lane_len: usize, column: usize) -> usize
    requires columns { column < lane_len }
    ensures value { result ≡ (column + lane_len - 1) % lane_len }
    ensures within { result < lane_len }
{
    if column == 0 {
        lane_len - 1
    } else {
        column - 1
    }
}

// l, the lane that J 2, the high half of J, names.
fn reference_lane(lanes: u32, pass: u32, lane: u32, slice: u32, j: u64) -> u32
    requires known { lane < lanes }
    ensures value { result
        ≡ (if nat_eq pass 0 && nat_eq slice 0 then lane else j / 2 ^ 32 % lanes) }
    ensures within { result < lanes }
{
    if pass == 0 && slice == 0 {
        lane
    } else {
        ((j >> 32) % lanes as u64) as u32
    }
}

/// The place that the word J of a column names.
pub(crate) fn reference_place(segment: &Segment, index: u32, j: u64) -> Place
    requires valid { IsInMatrix segment.now }
    requires indices { index < segment.now.len }
    requires first { first_index segment.now.pass segment.now.slice ≤ index }
    ensures value { result ≡ place_by_word segment.now index j }
    ensures lanes { result.lane < segment.now.lanes }
    ensures columns { result.column < 4 * segment.now.len }
{
    let lane = reference_lane(segment.lanes, segment.pass, segment.lane, segment.slice, j);
    let j1 = (j % 0x1_0000_0000) as u32;
    let column = reference_column(
        segment.len,
        segment.pass,
        segment.slice,
        index,
        lane == segment.lane,
        j1,
    );
    Place { lane, column }
}
