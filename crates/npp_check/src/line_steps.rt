//! The stages of the tolls and walks: one line at each.

ghost use Rattle.std.specs.Prelude.{◌≡◌, ◌<◌, ◌≤◌, ◌-◌, ◌^◌, length, map, [], All, IfOk, IfErr};
ghost use Rattle.npp_frac.specs.Fits.{limit_of};
ghost use Rattle.npp_net.specs.Network.{toll_count};
ghost use Rattle.npp_tree.specs.Items.{item_of, HasShortLists};
ghost use Rattle.npp_tree.specs.Outcome.{path_line_value};
ghost use Rattle.npp_check.specs.declared.stop.Stop.{Stop};
ghost use Rattle.npp_check.specs.Stages.{AtTolls, AtPaths};
ghost use Rattle.npp_check.specs.StageValue.{head_value, stage_value, step_value};
ghost use Rattle.npp_check.specs.Steps.{Steps, Stands, IsStageOf, ArePathsBut};

use crate::known::{Head, Printed};
use crate::measured::Measured;
use crate::paths::path_line;
use crate::stage::Stage;
use crate::stop::Stop;
use crate::tolls::toll_line;
use npp_frac::Exact;
use npp_net::TollId;
use npp_tree::{Item, PathLine};
use std::alloc::Global;

/// A toll.
pub fn toll_step<N: Exact>(
    alloc: Global,
    measured: &Measured,
    head: Box<Head<N>>,
    mut tolls: Vec<N>,
    item: &Item<N>,
) -> Result<Stage<N>, Stop>
    requires { length tolls.items < toll_count measured.now.net.arcs }
    ensures { Steps (limit_of N.WIDTH) measured.now
        (AtTolls (head_value N.rational head.value) (toll_count measured.now.net.arcs - length tolls.items) (map N.rational tolls.items))
        (item_of N.rational item.now) (step_value N.rational measured.now.net result) }
{
    let instance = measured.instance();
    let toll = toll_line(instance, TollId(tolls.len() as u32), item)?;
    tolls.push(toll)?;
    Ok(tolls_stage(alloc, measured, head, tolls))
}

/// The stage behind these tolls: that of the walks where they are all.
pub fn tolls_stage<N: Exact>(
    alloc: Global,
    measured: &Measured,
    head: Box<Head<N>>,
    tolls: Vec<N>,
) -> Stage<N>
    requires { length tolls.items ≤ toll_count measured.now.net.arcs }
    ensures { Stands (limit_of N.WIDTH) measured.now
        (AtTolls (head_value N.rational head.value) (toll_count measured.now.net.arcs - length tolls.items) (map N.rational tolls.items))
        (stage_value N.rational measured.now.net result) }
{
    if tolls.len() < measured.instance().tolls() as usize {
        Stage::Tolls { head, tolls }
    } else {
        Stage::Paths {
            head,
            tolls,
            paths: Vec::new(alloc),
        }
    }
}

/// A walk.
pub fn path_step<N: Exact>(
    alloc: Global,
    measured: &Measured,
    head: Box<Head<N>>,
    tolls: Vec<N>,
    mut paths: Vec<PathLine<N>>,
    item: Item<N>,
) -> Result<Stage<N>, Stop>
    requires stage { ArePathsBut measured.now.net (map N.rational tolls.items) (length measured.now.net.commodities - length paths.items) (map (path_line_value N.rational) paths.items) }
    requires short { HasShortLists item }
    ensures { Steps (limit_of N.WIDTH) measured.now
        (AtPaths (head_value N.rational head.value) (map N.rational tolls.items) (length measured.now.net.commodities - length paths.items) (map (path_line_value N.rational) paths.items))
        (item_of N.rational item) (step_value N.rational measured.now.net result) }
{
    let instance = measured.instance();
    let path = path_line(instance, &tolls, paths.len() as u32, item)?;
    paths.push(path)?;
    paths_stage(alloc, measured, head, tolls, paths)
}

/// The stage behind these walks: that of the covers where they are all.
fn paths_stage<N: Exact>(
    alloc: Global,
    measured: &Measured,
    head: Box<Head<N>>,
    tolls: Vec<N>,
    paths: Vec<PathLine<N>>,
) -> Result<Stage<N>, Stop>
    requires paths { length paths.items ≤ length measured.now.net.commodities }
    requires tolls { length tolls.items ≡ toll_count measured.now.net.arcs }
    requires costs { All (λ p. p.cost < 2 ^ 63) (map (path_line_value N.rational) paths.items) }
    ensures stage { IfOk result (λ s. Stands (limit_of N.WIDTH) measured.now
        (AtPaths (head_value N.rational head.value) (map N.rational tolls.items) (length measured.now.net.commodities - length paths.items) (map (path_line_value N.rational) paths.items))
        (stage_value N.rational measured.now.net s)) }
    ensures stop { IfErr result (λ e. e ≡ Stop.Memory) }
{
    if paths.len() < measured.instance().commodities().len() {
        return Ok(Stage::Paths { head, tolls, paths });
    }
    let head = Box::into_inner(head);
    let printed = Box::new(alloc, Printed { head, tolls, paths })?;
    Ok(Stage::Covers {
        printed,
        covers: Vec::new(alloc),
    })
}
