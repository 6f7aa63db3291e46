//! The stages of the nodes: one line at each.

ghost use Rattle.std.specs.Prelude.{◌≡◌, map, IfOk, IfErr};
ghost use Rattle.npp_frac.specs.Fits.{limit_of};
ghost use Rattle.npp_net.specs.Network.{Network};
ghost use Rattle.npp_rows.specs.Meaning.{multiplier_value};
ghost use Rattle.npp_rows.specs.Parts.{is_full};
ghost use Rattle.npp_tree.specs.Bounds.{bound_value, greater};
ghost use Rattle.npp_tree.specs.Items.{item_of};
ghost use Rattle.npp_check.specs.declared.stop.Stop.{Stop};
ghost use Rattle.npp_check.specs.Descents.{IsDescent, first_program, first_before};
ghost use Rattle.npp_check.specs.Stages.{from_stage, AtNodes};
ghost use Rattle.npp_check.specs.Standing.{AreOfRows};
ghost use Rattle.npp_check.specs.StageValue.{known_value, sum_value, nodes_value, multipliers_value, stage_value, step_value};
ghost use Rattle.npp_check.specs.Steps.{Steps, Leads, is_of_choice, IsStageOf};

use crate::block::{NodeBlock, Opening};
use crate::descent::{Descent, Sum};
use crate::measured::Measured;
use crate::node_proof::node_value;
use crate::node_rows::multiplier_line;
use crate::openings::{is_of_choice, opening_line, whole_bound};
use crate::stage::Stage;
use crate::stop::Stop;
use npp_frac::Exact;
use npp_rows::basic_of;
use npp_tree::{Bound, Item};
use std::alloc::Global;

/// The first line of a node.
pub fn node_step<N: Exact>(
    alloc: Global,
    measured: &Measured,
    descent: Box<Descent<N>>,
    item: &Item<N>,
) -> Result<Stage<N>, Stop>
    requires stage { IsStageOf measured.now (nodes_value N.rational descent.value) }
    ensures { Steps (limit_of N.WIDTH) measured.now (nodes_value N.rational descent.value) (item_of N.rational item.now) (step_value N.rational measured.now.net result) }
{
    let opening = opening_line(descent.places.allowed(), item)?;
    match opening {
        Opening::NotOpened => leave_open(alloc, measured, descent),
        Opening::Marked(_) => {
            let bound = bound_before(measured, &descent);
            Ok(Stage::Branch { descent, bound })
        }
        Opening::Answered(answer, left) => {
            let block = NodeBlock {
                answer,
                left,
                multipliers: Vec::new(alloc),
            };
            begin_block(alloc, measured, descent, block)
        }
    }
}

/// The bound of the first node before it is opened: the lesser of its parent's bound and the basic bound.
fn bound_before<N: Exact>(measured: &Measured, descent: &Descent<N>) -> Bound
    requires { IsDescent N.rational measured.now.net descent.now }
    ensures { bound_value result ≡ first_before measured.now.net descent.now }
{
    let places = &descent.places;
    let basic = basic_of(measured.instance(), &descent.known.covers, places.allowed());
    places.parent().lesser(whole_bound(basic))
}

/// The stage behind a node that was not opened.
fn leave_open<N: Exact>(
    alloc: Global,
    measured: &Measured,
    descent: Box<Descent<N>>,
) -> Result<Stage<N>, Stop>
    requires { IsDescent N.rational measured.now.net descent.value }
    ensures next { IfOk result (λ s. stage_value N.rational measured.now.net s ≡ AtNodes (known_value N.rational descent.value.known) descent.value.places.later
        (record { opened = descent.value.sum.opened; bound = greater (bound_value descent.value.sum.bound) (first_before measured.now.net descent.value) })) }
    ensures stop { IfErr result (λ e. e ≡ Stop.Memory) }
{
    let before = bound_before(measured, &descent);
    let Sum { opened, bound } = descent.sum;
    let sum = Sum {
        opened,
        bound: bound.greater(before),
    };
    behind_node(alloc, descent, sum)
}

/// The stage behind the first node, where the finished ones add up to this sum.
pub fn behind_node<N: Exact>(
    alloc: Global,
    mut descent: Box<Descent<N>>,
    sum: Sum,
) -> Result<Stage<N>, Stop>
    ensures next { IfOk result (λ s. (net : Network) → stage_value N.rational net s ≡ AtNodes (known_value N.rational descent.value.known) descent.value.places.later (sum_value sum)) }
    ensures stop { IfErr result (λ e. e ≡ Stop.Memory) }
{
    let tree = &mut *descent;
    tree.sum = sum;
    if tree.places.advance(alloc)? {
        Ok(Stage::Nodes(descent))
    } else {
        Ok(Stage::End(descent))
    }
}

/// The stage behind these multipliers of a node: that of the next one, or where they are all that behind the evidence.
fn begin_block<N: Exact>(
    alloc: Global,
    measured: &Measured,
    descent: Box<Descent<N>>,
    block: NodeBlock<N>,
) -> Result<Stage<N>, Stop>
    requires tree { IsDescent N.rational measured.now.net descent.value }
    requires kind { is_of_choice block.answer ≡ is_full descent.value.places.first.parts }
    requires rows { AreOfRows (first_program N.rational measured.now.net descent.value) (map (multiplier_value N.rational) block.multipliers.items) }
    ensures { Leads (limit_of N.WIDTH) measured.now (from_stage (limit_of N.WIDTH) measured.now (multipliers_value N.rational descent.value block)) (step_value N.rational measured.now.net result) }
{
    if block.left > 0 {
        return Ok(Stage::Multipliers { descent, block });
    }
    let value = node_value(alloc, measured, &descent, &block)?;
    let bound = bound_before(measured, &descent).lesser(value);
    Ok(Stage::Branch { descent, bound })
}

/// A multiplier of the first node.
pub fn multiplier_step<N: Exact>(
    alloc: Global,
    measured: &Measured,
    descent: Box<Descent<N>>,
    mut block: NodeBlock<N>,
    item: &Item<N>,
) -> Result<Stage<N>, Stop>
    requires stage { IsStageOf measured.now (multipliers_value N.rational descent.value block) }
    ensures { Steps (limit_of N.WIDTH) measured.now (multipliers_value N.rational descent.value block) (item_of N.rational item.now) (step_value N.rational measured.now.net result) }
{
    let full = is_of_choice(block.answer);
    let multiplier = multiplier_line(measured, &descent, full, &block.multipliers, item)?;
    block.multipliers.push(multiplier)?;
    block.left -= 1;
    begin_block(alloc, measured, descent, block)
}
