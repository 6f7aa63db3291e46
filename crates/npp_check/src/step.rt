//! One line at whatever stage.

ghost use Rattle.npp_frac.specs.Fits.{limit_of};
ghost use Rattle.npp_tree.specs.Items.{item_of, HasShortLists};
ghost use Rattle.npp_check.specs.StageValue.{stage_value, step_value};
ghost use Rattle.npp_check.specs.Steps.{Steps, IsStageOf};

use crate::branch_steps::{branch_step, end_step};
use crate::cover_steps::{cover_step, label_step};
use crate::cut_steps::{cut_multiplier_step, cut_step};
use crate::head_steps::{
    header_step, instance_step, limit_step, lower_step, opened_step, status_step, upper_step,
    width_step,
};
use crate::line_steps::{path_step, toll_step};
use crate::measured::Measured;
use crate::node_steps::{multiplier_step, node_step};
use crate::refusal::Rule;
use crate::stage::Stage;
use crate::stop::Stop;
use npp_frac::Exact;
use npp_tree::Item;
use std::alloc::Global;

/// The stage behind the line of this item, or why the line is not taken.
pub fn step<N: Exact>(
    alloc: Global,
    measured: &Measured,
    stage: Stage<N>,
    item: Item<N>,
) -> Result<Stage<N>, Stop>
    requires stage { IsStageOf measured.now (stage_value N.rational measured.now.net stage) }
    requires short { HasShortLists item }
    ensures { Steps (limit_of N.WIDTH) measured.now (stage_value N.rational measured.now.net stage) (item_of N.rational item) (step_value N.rational measured.now.net result) }
{
    match stage {
        Stage::Header => header_step(measured, &item),
        Stage::Status { two } => status_step(measured, two, &item),
        Stage::Width { two, status } => width_step(measured, two, status, &item),
        Stage::Lower { two, status } => lower_step(measured, two, status, &item),
        Stage::Upper { two, status, lower } => {
            upper_step(alloc, measured, two, status, lower, &item)
        }
        Stage::Opened { two, head } => opened_step(alloc, measured, two, head, &item),
        Stage::Instance { head } => instance_step(alloc, measured, head, &item),
        Stage::Limits { head, taken } => limit_step(alloc, measured, head, taken, &item),
        Stage::Tolls { head, tolls } => toll_step(alloc, measured, head, tolls, &item),
        Stage::Paths { head, tolls, paths } => path_step(alloc, measured, head, tolls, paths, item),
        Stage::Covers { printed, covers } => cover_step(alloc, measured, printed, covers, &item),
        Stage::Labels { printed, cover } => label_step(alloc, measured, printed, cover, item),
        Stage::Cuts { known, left } => cut_step(alloc, measured, known, left, item),
        Stage::CutMultipliers { left, known, block } => {
            cut_multiplier_step(alloc, measured, known, left, block, &item)
        }
        Stage::Nodes(descent) => node_step(alloc, measured, descent, &item),
        Stage::Multipliers { descent, block } => {
            multiplier_step(alloc, measured, descent, block, &item)
        }
        Stage::Branch { descent, bound } => branch_step(alloc, measured, descent, bound, item),
        Stage::End(descent) => end_step(measured, descent, &item),
        Stage::Behind(_) => Err(Stop::Broken(Rule::Order)),
    }
}
