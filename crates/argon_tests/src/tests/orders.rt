//! Slices that are made by lanes in any order, of which the tests run every one of four lanes.
ghost use Rattle.std.specs.Prelude.{◌≡◌, ◌≢◌, ℕ, ◌+◌, ◌-◌, ◌<◌, length, slice_index};
ghost use Rattle.argon.specs.Filling.{HasSliceLeft};
ghost use Rattle.argon.specs.Inputs.{InputsFitParameters, inputs_of};

use super::right_standard_rows;
use argon::{Inputs, Lanes, Matrix, Params, Ticks, Weave};
use std::alloc::Global;

// Makes a block of each lane of the order in turn, where it has one left.
fn take_turns(weave: &mut Weave, order: &[u32], ticks: &mut Ticks)
    ensures matrix { weave.new.matrix ≡ record weave.old.matrix { blocks = weave.new.matrix.blocks } }
{
    for lane in order {
        if weave.left(*lane) > 0 {
            weave.step(*lane, ticks);
        }
    }
}

// Makes what a lane has left.
fn finish_lane(weave: &mut Weave, lane: u32, ticks: &mut Ticks)
    ensures matrix { weave.new.matrix ≡ record weave.old.matrix { blocks = weave.new.matrix.blocks } }
    ensures none { slice_index weave.new.left lane ≡ 0 }
    ensures others { (other : ℕ) → other ≢ lane
        → slice_index weave.new.left other ≡ slice_index weave.old.left other }
{
    for _ in 0..weave.left(lane) {
        weave.step(lane, ticks);
    }
}

// Makes what so many lanes have left.
fn finish_lanes(weave: &mut Weave, lanes: u32, ticks: &mut Ticks)
    ensures matrix { weave.new.matrix ≡ record weave.old.matrix { blocks = weave.new.matrix.blocks } }
    ensures none { (lane : ℕ) → lane < lanes → slice_index weave.new.left lane ≡ 0 }
{
    for lane in 0..lanes {
        finish_lane(weave, lane, ticks);
    }
}

// Makes the next slice: a block of each lane of the order in turn, where it has one left, and then
// what is left.
fn slice_by(
    matrix: Matrix,
    lanes: Lanes,
    params: &Params,
    order: &[u32],
    ticks: &mut Ticks,
) -> (Matrix, Lanes)
    requires parameters { params.now ≡ matrix.parameters }
    requires lanes { lanes ≡ matrix.parameters }
    requires next { HasSliceLeft matrix }
    ensures parameters { result.0.parameters ≡ matrix.parameters }
    ensures started { result.0.is_started ≡ matrix.is_started }
    ensures position { result.0.slices_made ≡ matrix.slices_made + 1 }
    ensures lanes { result.1 ≡ matrix.parameters }
{
    let mut weave = Weave::open(matrix, lanes, ticks);
    take_turns(&mut weave, order, ticks);
    finish_lanes(&mut weave, params.lanes(), ticks);
    weave.close()
}

/// Writes the tag of the inputs, with every slice made in that order.
pub fn hash_by(
    reserved: Matrix,
    reserved_lanes: Lanes,
    params: &Params,
    inputs: &Inputs<'_>,
    order: &[u32],
    out: &mut [u8],
    ticks: &mut Ticks,
)
    requires parameters { params.now ≡ reserved.parameters }
    requires lanes { reserved_lanes ≡ reserved.parameters }
    requires inputs { InputsFitParameters params.now (inputs_of inputs.now) }
    requires len { length out.old ≡ params.now.tag_len }
{
    let mut matrix = reserved;
    let mut lanes = reserved_lanes;
    matrix.start(inputs);
    for _ in 0..4 * params.passes() as u64 {
        let (made, same_lanes) = slice_by(matrix, lanes, params, order, ticks);
        matrix = made;
        lanes = same_lanes;
    }
    matrix.tag(out);
}

// Every order of four lanes.
static ORDERS: [[u32; 4]; 24] = [
    [0, 1, 2, 3],
    [0, 1, 3, 2],
    [0, 2, 1, 3],
    [0, 2, 3, 1],
    [0, 3, 1, 2],
    [0, 3, 2, 1],
    [1, 0, 2, 3],
    [1, 0, 3, 2],
    [1, 2, 0, 3],
    [1, 2, 3, 0],
    [1, 3, 0, 2],
    [1, 3, 2, 0],
    [2, 0, 1, 3],
    [2, 0, 3, 1],
    [2, 1, 0, 3],
    [2, 1, 3, 0],
    [2, 3, 0, 1],
    [2, 3, 1, 0],
    [3, 0, 1, 2],
    [3, 0, 2, 1],
    [3, 1, 0, 2],
    [3, 1, 2, 0],
    [3, 2, 0, 1],
    [3, 2, 1, 0],
];

// Of how many orders the tags of the standard are right, from the first on: lane by lane and block by block.
fn right_orders(alloc: Global) -> u32 {
    let mut right = 0u32;
    for order in &ORDERS {
        let [a, b, c, d] = *order;
        if right_standard_rows(alloc, &[a, a, b, b, c, c, d, d]) != 3
            || right_standard_rows(alloc, &[a, b, c, d, a, b, c, d]) != 3
        {
            return right;
        }
        right = right.wrapping_add(1);
    }
    right
}

#[test]
fn every_order_of_four_lanes(rt: HostRuntime) {
    assert!(rt; right_orders(rt.alloc()) == 24);
}
