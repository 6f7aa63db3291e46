//! The stages of the head, down to the ceilings: one line at each.

ghost use Rattle.std.specs.Prelude.{◌≡◌, ◌<◌, ◌≤◌, ◌-◌, length, map, [], Option};
ghost use Rattle.std.specs.List.{range_with_len};
ghost use Rattle.npp_frac.specs.Fits.{limit_of};
ghost use Rattle.npp_net.specs.Network.{toll_count, ceiling_of};
ghost use Rattle.npp_tree.specs.Items.{item_of};
ghost use Rattle.npp_check.specs.Stages.{AtHeader, AtStatus, AtWidth, AtLower, AtUpper, AtOpened, AtInstance, AtLimits, AtTolls};
ghost use Rattle.npp_check.specs.StageValue.{head_value, stage_value, step_value};
ghost use Rattle.npp_check.specs.Steps.{Steps, Stands, IsStageOf};

use crate::head::{
    header_line, instance_line, limit_line, lower_line, opened_line, status_line, upper_line,
    width_line,
};
use crate::known::Head;
use crate::line_steps::tolls_stage;
use crate::measured::Measured;
use crate::stage::Stage;
use crate::stop::Stop;
use npp_frac::Exact;
use npp_net::TollId;
use npp_tree::{Item, Status};
use std::alloc::Global;

/// The first line.
pub fn header_step<N: Exact>(measured: &Measured, item: &Item<N>) -> Result<Stage<N>, Stop>
    ensures { Steps (limit_of N.WIDTH) measured.now AtHeader (item_of N.rational item.now) (step_value N.rational measured.now.net result) }
{
    let two = header_line(measured.instance(), item)?;
    Ok(Stage::Status { two })
}

/// How the search ended.
pub fn status_step<N: Exact>(
    measured: &Measured,
    two: bool,
    item: &Item<N>,
) -> Result<Stage<N>, Stop>
    ensures { Steps (limit_of N.WIDTH) measured.now (AtStatus two) (item_of N.rational item.now) (step_value N.rational measured.now.net result) }
{
    let _net = measured.instance();
    let status = status_line(item)?;
    Ok(Stage::Width { two, status })
}

/// The width.
pub fn width_step<N: Exact>(
    measured: &Measured,
    two: bool,
    status: Status,
    item: &Item<N>,
) -> Result<Stage<N>, Stop>
    ensures { Steps (limit_of N.WIDTH) measured.now (AtWidth two status) (item_of N.rational item.now) (step_value N.rational measured.now.net result) }
{
    let _net = measured.instance();
    let _width = width_line(item)?;
    Ok(Stage::Lower { two, status })
}

/// The lower value.
pub fn lower_step<N: Exact>(
    measured: &Measured,
    two: bool,
    status: Status,
    item: &Item<N>,
) -> Result<Stage<N>, Stop>
    ensures { Steps (limit_of N.WIDTH) measured.now (AtLower two status) (item_of N.rational item.now) (step_value N.rational measured.now.net result) }
{
    let _net = measured.instance();
    let lower = lower_line(item)?;
    Ok(Stage::Upper { two, status, lower })
}

/// The upper value.
pub fn upper_step<N: Exact>(
    alloc: Global,
    measured: &Measured,
    two: bool,
    status: Status,
    lower: N,
    item: &Item<N>,
) -> Result<Stage<N>, Stop>
    ensures { Steps (limit_of N.WIDTH) measured.now (AtUpper two status (N.rational lower)) (item_of N.rational item.now) (step_value N.rational measured.now.net result) }
{
    let _net = measured.instance();
    let upper = upper_line(item)?;
    let head = Box::new(
        alloc,
        Head {
            status,
            lower,
            upper,
            opened: 0,
        },
    )?;
    Ok(Stage::Opened { two, head })
}

/// The number of opened nodes. The first form goes on with the tolls.
pub fn opened_step<N: Exact>(
    alloc: Global,
    measured: &Measured,
    two: bool,
    mut head: Box<Head<N>>,
    item: &Item<N>,
) -> Result<Stage<N>, Stop>
    ensures { Steps (limit_of N.WIDTH) measured.now (AtOpened two head.value.status (N.rational head.value.lower) (N.rational head.value.upper)) (item_of N.rational item.now) (step_value N.rational measured.now.net result) }
{
    let opened = opened_line(item)?;
    let said = &mut *head;
    said.opened = opened;
    if two {
        Ok(Stage::Instance { head })
    } else {
        Ok(tolls_stage(alloc, measured, head, Vec::new(alloc)))
    }
}

/// The sizes of the instance.
pub fn instance_step<N: Exact>(
    alloc: Global,
    measured: &Measured,
    head: Box<Head<N>>,
    item: &Item<N>,
) -> Result<Stage<N>, Stop>
    ensures { Steps (limit_of N.WIDTH) measured.now (AtInstance (head_value N.rational head.value)) (item_of N.rational item.now) (step_value N.rational measured.now.net result) }
{
    instance_line(measured.instance(), item)?;
    Ok(limits_stage(alloc, measured, head, 0))
}

/// A ceiling.
pub fn limit_step<N: Exact>(
    alloc: Global,
    measured: &Measured,
    head: Box<Head<N>>,
    taken: u32,
    item: &Item<N>,
) -> Result<Stage<N>, Stop>
    requires { taken < toll_count measured.now.net.arcs }
    ensures { Steps (limit_of N.WIDTH) measured.now
        (AtLimits (head_value N.rational head.value) (toll_count measured.now.net.arcs - taken) (map (ceiling_of measured.now.net.arcs) (range_with_len 0 taken)))
        (item_of N.rational item.now) (step_value N.rational measured.now.net result) }
{
    let _ceiling = limit_line(measured.instance(), TollId(taken), item)?;
    Ok(limits_stage(alloc, measured, head, taken + 1))
}

/// The stage behind so many ceilings: that of the tolls where these are all.
fn limits_stage<N: Exact>(
    alloc: Global,
    measured: &Measured,
    head: Box<Head<N>>,
    taken: u32,
) -> Stage<N>
    requires { taken ≤ toll_count measured.now.net.arcs }
    ensures { Stands (limit_of N.WIDTH) measured.now
        (AtLimits (head_value N.rational head.value) (toll_count measured.now.net.arcs - taken) (map (ceiling_of measured.now.net.arcs) (range_with_len 0 taken)))
        (stage_value N.rational measured.now.net result) }
{
    if taken < measured.instance().tolls() {
        Stage::Limits { head, taken }
    } else {
        tolls_stage(alloc, measured, head, Vec::new(alloc))
    }
}
