//! Laws of the definitions: each function has no body, and its clauses are the law.
ghost use Rattle.std.specs.Prelude.{◌≡◌, ℕ, List};
ghost use Rattle.argon.specs.Filling.{Filling, HasSliceLeft, IsFilling};
ghost use Rattle.argon.specs.Laws.{IsMadeByReference, IsLaneOrderOfWholeSlice, after_lane_turns, lane_turns_work};
ghost use Rattle.argon.specs.Parameters.{Parameters};
ghost use Rattle.argon.specs.Reference.{ReadsFinishedSegments};
ghost use Rattle.argon.specs.SliceProgress.{new_slice_progress, work_left};
ghost use Rattle.argon.specs.Woven.{with_next_slice};

// Whatever word J a block has, what it names in another lane is no place of the slice that is being made. So no lane reads
// what another one writes in the same slice.
fn other_lanes_are_read_outside_the_slice()
    ensures finished { (parameters : Parameters) (pass lane slice index : ℕ)
        → IsMadeByReference parameters pass lane slice index
        → ReadsFinishedSegments parameters pass lane slice index }
{}

// In whatever order the lanes go on until none has any block left, they make the same matrix, which is the one with its
// next slice made, and take the same number of block functions.
fn every_order_makes_the_same_slice()
    ensures made { (matrix : Filling) (order : List ℕ) → IsFilling matrix → HasSliceLeft matrix
        → IsLaneOrderOfWholeSlice matrix order
        → (after_lane_turns (new_slice_progress matrix) order).matrix.blocks ≡ (with_next_slice matrix).blocks }
    ensures matrix { (matrix : Filling) (order other : List ℕ) → IsFilling matrix → HasSliceLeft matrix
        → IsLaneOrderOfWholeSlice matrix order → IsLaneOrderOfWholeSlice matrix other
        → after_lane_turns (new_slice_progress matrix) order ≡ after_lane_turns (new_slice_progress matrix) other }
    ensures count { (matrix : Filling) (order : List ℕ) → IsFilling matrix → HasSliceLeft matrix
        → IsLaneOrderOfWholeSlice matrix order
        → lane_turns_work (new_slice_progress matrix) order ≡ work_left (new_slice_progress matrix) }
{}
