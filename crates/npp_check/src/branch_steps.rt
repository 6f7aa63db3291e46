//! The line behind the evidence of a node, and the last line.

ghost use Rattle.std.specs.Prelude.{◌≡◌, ◌<◌, ◌+◌, All, IfOk, IfErr};
ghost use Rattle.std.specs.List.{AllPairs};
ghost use Rattle.npp_frac.specs.Fits.{limit_of};
ghost use Rattle.npp_frac.specs.Wide.{value_of_wide};
ghost use Rattle.npp_tree.specs.declared.item.Item.{Item};
ghost use Rattle.npp_net.specs.Network.{Network};
ghost use Rattle.npp_tree.specs.Bounds.{bound_value, greater};
ghost use Rattle.npp_tree.specs.Items.{item_of};
ghost use Rattle.npp_check.specs.declared.stop.Stop.{Stop};
ghost use Rattle.npp_check.specs.EndLine.{is_at, is_optimal, end_line};
ghost use Rattle.npp_check.specs.Stages.{Case, AtNodes};
ghost use Rattle.npp_check.specs.StageValue.{head_value, known_value, branch_value, end_value, stage_value, step_value};
ghost use Rattle.npp_check.specs.Steps.{Steps, IsStageOf};

use crate::descent::{Descent, Sum};
use crate::division::divide;
use crate::known::Head;
use crate::measured::Measured;
use crate::node_steps::behind_node;
use crate::refusal::Rule;
use crate::stage::Stage;
use crate::stop::Stop;
use crate::sums::differ;
use npp_frac::{Exact, Frac128};
use npp_net::Listed;
use npp_tree::{Bound, Item, Status};
use std::alloc::Global;

/// The line behind the evidence of a node: it goes on no further, or is split.
pub fn branch_step<N: Exact>(
    alloc: Global,
    measured: &Measured,
    descent: Box<Descent<N>>,
    bound: Bound,
    item: Item<N>,
) -> Result<Stage<N>, Stop>
    requires stage { IsStageOf measured.now (branch_value N.rational descent.value bound) }
    ensures { Steps (limit_of N.WIDTH) measured.now (branch_value N.rational descent.value bound) (item_of N.rational item) (step_value N.rational measured.now.net result) }
{
    match item {
        Item::Leaf => leaf_step(alloc, descent, bound),
        Item::Split { commodity, part } => split_step(alloc, descent, bound, commodity, part),
        _ => Err(Stop::Broken(Rule::Order)),
    }
}

/// The stage behind a first node that goes on no further.
fn leaf_step<N: Exact>(
    alloc: Global,
    descent: Box<Descent<N>>,
    bound: Bound,
) -> Result<Stage<N>, Stop>
    ensures next { IfOk result (λ s. (net : Network) → stage_value N.rational net s ≡ AtNodes (known_value N.rational descent.value.known) descent.value.places.later
        (record { opened = descent.value.sum.opened + 1; bound = greater (bound_value descent.value.sum.bound) (bound_value bound) })) }
    ensures stop { IfErr result (λ e. e ≡ Stop.Memory) }
{
    let sum = Sum {
        opened: one_more(descent.sum.opened)?,
        bound: descent.sum.bound.greater(bound),
    };
    behind_node(alloc, descent, sum)
}

/// The stage behind a split of the first node.
fn split_step<N: Exact>(
    alloc: Global,
    mut descent: Box<Descent<N>>,
    bound: Bound,
    commodity: u32,
    part: Listed<u32>,
) -> Result<Stage<N>, Stop>
    requires { All (AllPairs (λ p q. p < q)) descent.value.places.first.parts }
    ensures { (c : Case) → IsStageOf c (branch_value N.rational descent.value bound)
        → Steps (limit_of N.WIDTH) c (branch_value N.rational descent.value bound) (Item.Split commodity part) (step_value N.rational c.net result) }
{
    let tree = &mut *descent;
    let divided = divide(alloc, tree.places.allowed(), commodity, part.entries())?;
    let Some(rest) = divided else {
        return Err(Stop::Broken(Rule::Split));
    };
    let opened = one_more(tree.sum.opened)?;
    tree.sum.opened = opened;
    tree.places
        .split(alloc, commodity, part, Listed::of(rest), bound)?;
    Ok(Stage::Nodes(descent))
}

/// A count with one more. Where it would pass 2^64 the answer is Memory.
fn one_more(count: u64) -> Result<u64, Stop>
    ensures next { IfOk result (λ n. n ≡ count + 1) }
    ensures full { IfErr result (λ e. e ≡ Stop.Memory) }
{
    if count < u64::MAX {
        Ok(count + 1)
    } else {
        Err(Stop::Memory)
    }
}

/// The last line.
pub fn end_step<N: Exact>(
    measured: &Measured,
    descent: Box<Descent<N>>,
    item: &Item<N>,
) -> Result<Stage<N>, Stop>
    ensures { Steps (limit_of N.WIDTH) measured.now (end_value N.rational descent.value) (item_of N.rational item.now) (step_value N.rational measured.now.net result) }
{
    end_line(descent.known.head, descent.sum, item)?;
    Ok(Stage::Behind(descent))
}

/// The head says how many nodes are opened and which bound the tree has, and Optimal where both values are equal.
fn end_line<N: Exact>(head: Head<N>, sum: Sum, item: &Item<N>) -> Result<(), Rule>
    ensures { result ≡ end_line (head_value N.rational head) sum.opened (bound_value sum.bound) (item_of N.rational item.now) }
{
    let Item::End = item else {
        return Err(Rule::Order);
    };
    if u64::from(head.opened) != sum.opened {
        return Err(Rule::Opened);
    }
    if !is_at(sum.bound, head.upper.widen()) {
        return Err(Rule::Upper);
    }
    if is_optimal(head.status) == differ(head.lower, head.upper) {
        return Err(Rule::Status);
    }
    Ok(())
}

/// Whether the search is said to have ended with the optimum.
fn is_optimal(status: Status) -> bool
    ensures { result ≡ is_optimal status }
{
    matches!(status, Status::Optimal)
}

/// Whether a bound is this number.
fn is_at(bound: Bound, number: Frac128) -> bool
    ensures { result ≡ is_at (bound_value bound) (value_of_wide number) }
{
    match bound {
        Bound::Empty => false,
        Bound::At(value) => !differ(value, number),
    }
}
