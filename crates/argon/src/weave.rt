//! One slice of the matrix, made block by block by lanes in any order (RFC 9106, section 3.4: within
//! a slice no lane reads what another makes).
ghost use Rattle.std.specs.Prelude.{◌≡◌, ℕ, ◌+◌, ◌-◌, ◌*◌, ◌/◌, ◌%◌, ◌<◌, length, slice_index, slice_index_or, slice_set, []};
ghost use Rattle.argon.specs.Counts.{address_work, column_work, slice_work};
ghost use Rattle.argon.specs.Filling.{Filling, HasSliceLeft, IsNewest};
ghost use Rattle.argon.specs.Reference.{HasAddresses, is_independent};
ghost use Rattle.argon.specs.SliceProgress.{HasNoBlocksLeft, HoldsNewestBlocksByLane, ReadsFinishedSegmentsNext, next_index_in_segment, new_slice_progress, with_next_block, work_left};
ghost use Rattle.argon.specs.Woven.{IsSliceProgressOf, with_next_slice};

use crate::addresses::prepare_addresses;
use crate::block::Block;
use crate::blocks::Blocks;
use crate::compression::Scratch;
use crate::lanes::Lanes;
use crate::matrix::Matrix;
use crate::numbers::GrantedNumbers;
use crate::params::Params;
use crate::segment::{Segment, fill_next_block, first_index};
use crate::ticks::Ticks;
use std::marker::Model;

/// A matrix of which one slice is being made. The caller chooses, block by block, which lane goes
/// on; in whatever order they come, the matrix that is closed is the one that
/// [`Matrix::slice`](crate::Matrix::slice) makes.
///
/// Contracts see the matrix as it was opened, but with the blocks that are made so far, and how many
/// blocks of the slice each lane has still to make.
#[derive(Drop)]
pub struct Weave {
    params: Params,
    h0: [u8; 64],
    slices_made: u64,
    blocks: Blocks,
    left: GrantedNumbers,
    addresses: Blocks,
    scratch: Scratch,
}

impl Model for Weave {
    ghost use Rattle.argon.specs.Weave.{SliceProgress, slice_progress_of, IsSliceProgressWithAddresses};

    ghost Value = { SliceProgress };

    ghost view = { slice_progress_of };

    ghost invariant = { IsSliceProgressWithAddresses };
}

// Makes the first address block of each lane where the addressing of the slice is independent.
fn prepare_lane_addresses(
    params: &Params,
    pass: u32,
    slice: u32,
    addresses: &mut [Block],
    scratch: &mut Scratch,
    ticks: &mut Ticks,
)
    requires slices { slice < 4 }
    requires size { length addresses.old ≡ params.now.lanes }
    ensures size { length addresses.new ≡ length addresses.old }
    ensures addresses { (lane : ℕ) → lane < params.now.lanes
        → HasAddresses params.now pass lane slice 0 (slice_index_or addresses.new lane []) }
    ensures count { ticks.new ≡ ticks.old
        + params.now.lanes * address_work (is_independent params.now pass slice) 1 }
{
    for lane in 0..params.lanes() {
        let segment = Segment::new(params, pass, lane, slice);
        prepare_addresses(
            params,
            &segment,
            0,
            &mut addresses[lane as usize],
            scratch,
            ticks,
        );
    }
}

impl Weave {
    /// Opens the next slice of a started matrix. Where the addressing is independent, it makes the
    /// first address block of each lane, in two block functions.
    pub fn open(matrix: Matrix, lanes: Lanes, ticks: &mut Ticks) -> Weave
        requires parameters { lanes ≡ matrix.parameters }
        requires next { HasSliceLeft matrix }
        ensures weave { result ≡ new_slice_progress matrix }
        ensures woven { IsSliceProgressOf matrix result }
        ensures newest { HoldsNewestBlocksByLane result }
        ensures share { ticks.new + work_left result ≡ ticks.old
            + slice_work matrix.parameters (matrix.slices_made / 4) (matrix.slices_made % 4) }
        ensures count { ticks.new ≡ ticks.old + matrix.parameters.lanes
            * address_work (is_independent matrix.parameters (matrix.slices_made / 4)
            (matrix.slices_made % 4)) 1 }
    {
        let pass = (matrix.slices_made / 4) as u32;
        let slice = (matrix.slices_made % 4) as u32;
        let Matrix {
            params,
            h0,
            slices_made,
            blocks,
            ..
        } = matrix;
        let Lanes {
            mut left,
            mut addresses,
            ..
        } = lanes;
        let mut scratch = Scratch::new();
        left.fill(params.segment_len() - first_index(pass, slice));
        prepare_lane_addresses(
            &params,
            pass,
            slice,
            addresses.held.blocks_mut(),
            &mut scratch,
            ticks,
        );
        Weave {
            params,
            h0,
            slices_made,
            blocks,
            left,
            addresses,
            scratch,
        }
    }

    /// How many blocks of the slice a lane, counted from 0, has still to make: 0 where there is no
    /// such lane.
    pub fn left(&self, lane: u32) -> u32
        ensures value { result ≡ slice_index self.now.left lane }
    {
        self.left.at(lane)
    }

    /// Makes the next block of a lane that has some left. It takes one block function, and two more
    /// where it makes an address block: where the addressing is independent, with each 128th column
    /// of the segment.
    pub fn step(&mut self, lane: u32, ticks: &mut Ticks)
        requires left { 0 < slice_index self.old.left lane }
        ensures left { self.new.left
            ≡ slice_set self.old.left lane (slice_index self.old.left lane - 1) }
        ensures matrix { self.new.matrix
            ≡ record self.old.matrix { blocks = with_next_block self.old lane } }
        ensures woven { (matrix : Filling) → IsSliceProgressOf matrix self.old
            → IsSliceProgressOf matrix self.new }
        ensures newest { HoldsNewestBlocksByLane self.new }
        ensures apart { ReadsFinishedSegmentsNext self.old lane }
        ensures share { ticks.new + work_left self.new ≡ ticks.old + work_left self.old }
        ensures count { ticks.new ≡ ticks.old
            + column_work self.old.matrix.parameters (self.old.matrix.slices_made / 4)
            (self.old.matrix.slices_made % 4) (next_index_in_segment self.old lane) }
    {
        let pass = (self.slices_made / 4) as u32;
        let slice = (self.slices_made % 4) as u32;
        let segment = Segment::new(&self.params, pass, lane, slice);
        let index = segment.len - self.left.at(lane);
        fill_next_block(
            self.blocks.held.blocks_mut(),
            &self.params,
            &segment,
            index,
            &mut self.addresses.held.blocks_mut()[lane as usize],
            &mut self.scratch,
            ticks,
        );
        self.left.take_one(lane);
    }

    /// Gives the matrix with the slice made, and the lanes for another slice, where no lane has
    /// blocks left to make.
    pub fn close(self) -> (Matrix, Lanes)
        requires none_left { HasNoBlocksLeft self }
        ensures matrix { result.0
            ≡ record self.matrix { slices_made = self.matrix.slices_made + 1 } }
        ensures woven { (matrix : Filling) → IsSliceProgressOf matrix self
            → result.0 ≡ with_next_slice matrix }
        ensures newest { IsNewest result.0 }
        ensures lanes { result.1 ≡ self.matrix.parameters }
        ensures share { work_left self ≡ 0 }
    {
        let lanes = Lanes {
            params: self.params.copied(),
            left: self.left,
            addresses: self.addresses,
        };
        let matrix = Matrix {
            params: self.params,
            h0: self.h0,
            is_started: true,
            slices_made: self.slices_made + 1,
            blocks: self.blocks,
        };
        (matrix, lanes)
    }
}
