//! What is relied on of calls, restated: each is proved from the contract of its call alone, and nothing uses them.
ghost use Rattle.std.specs.Prelude.{◌≡◌, ◌<◌, slice_index};
ghost use Rattle.argon.specs.Inside.Planning.{AreMadeByPlan, CanBePlanned};
ghost use Rattle.argon.specs.SliceProgress.{HasNoBlocksLeft, ReadsFinishedSegmentsNext, work_left};

use crate::lanes::Lanes;
use crate::matrix::Matrix;
use crate::params::Params;
use crate::places::Place;
use crate::plan::plan_segment;
use crate::ticks::Ticks;
use crate::weave::Weave;

// A plan, by which the blocks of its segment are made.
fn plan_to_follow(
    params: &Params,
    pass: u32,
    lane: u32,
    slice: u32,
    out: &mut [Place],
    ticks: &mut Ticks,
)
    requires segment { CanBePlanned params.now pass lane slice out.old }
    ensures made { AreMadeByPlan params.now pass lane slice }
{
    plan_segment(params, pass, lane, slice, out, ticks);
}

// A step of a lane beside others that go on.
fn step_beside_others(weave: &mut Weave, lane: u32, ticks: &mut Ticks)
    requires left { 0 < slice_index weave.old.left lane }
    ensures apart { ReadsFinishedSegmentsNext weave.old lane }
{
    weave.step(lane, ticks);
}

// The end of a slice, of whose work nothing is left.
fn close_with_all_counted(weave: Weave) -> (Matrix, Lanes)
    requires none_left { HasNoBlocksLeft weave }
    ensures share { work_left weave ≡ 0 }
{
    weave.close()
}
