//! The stages of the covers: one line at each.

ghost use Rattle.std.specs.Prelude.{◌≡◌, ◌<◌, ◌≤◌, length};
ghost use Rattle.npp_frac.specs.Fits.{limit_of};
ghost use Rattle.npp_rows.specs.Limits.{path_total};
ghost use Rattle.npp_tree.specs.declared.item.Item.{Item};
ghost use Rattle.npp_tree.specs.Items.{item_of, HasShortLists};
ghost use Rattle.npp_check.specs.CoverLines.{cover_line};
ghost use Rattle.npp_check.specs.Stops.{stop_of_fault};
ghost use Rattle.npp_check.specs.StageValue.{covers_value, labels_value, step_value};
ghost use Rattle.npp_check.specs.Steps.{Steps, IsStageOf};

use crate::cuts_line::cuts_line;
use crate::known::{Known, OpenCover, Printed};
use crate::measured::Measured;
use crate::refusal::Rule;
use crate::stage::Stage;
use crate::stop::Stop;
use npp_cover::{Cover, CoverFault, GrowingDraft, StepDraft};
use npp_frac::Exact;
use npp_net::Walk;
use npp_tree::Item;
use std::alloc::Global;

/// The head of a cover, or the number of cuts where all covers stand.
pub fn cover_step<N: Exact>(
    alloc: Global,
    measured: &Measured,
    printed: Box<Printed<N>>,
    covers: Vec<Cover>,
    item: &Item<N>,
) -> Result<Stage<N>, Stop>
    requires stage { IsStageOf measured.now (covers_value N.rational measured.now.net printed.value covers.items) }
    ensures { Steps (limit_of N.WIDTH) measured.now (covers_value N.rational measured.now.net printed.value covers.items)
        (item_of N.rational item.now) (step_value N.rational measured.now.net result) }
{
    if covers.len() < measured.instance().commodities().len() {
        begin_cover(alloc, measured, printed, covers, item)
    } else {
        cuts_step(alloc, measured, Box::into_inner(printed), covers, item)
    }
}

/// The head of the next cover.
fn begin_cover<N: Exact>(
    alloc: Global,
    measured: &Measured,
    printed: Box<Printed<N>>,
    covers: Vec<Cover>,
    item: &Item<N>,
) -> Result<Stage<N>, Stop>
    requires stage { IsStageOf measured.now (covers_value N.rational measured.now.net printed.value covers.items) }
    requires more { length covers.items < length measured.now.net.commodities }
    ensures { Steps (limit_of N.WIDTH) measured.now (covers_value N.rational measured.now.net printed.value covers.items)
        (item_of N.rational item.now) (step_value N.rational measured.now.net result) }
{
    let _net = measured.instance();
    let k = covers.len() as u32;
    let left = cover_line(k, item)?;
    let draft = GrowingDraft::new(alloc, k, measured.span(k));
    let cover = Box::new(
        alloc,
        OpenCover {
            covers,
            draft,
            taken: 0,
            left,
        },
    )?;
    Ok(Stage::Labels { printed, cover })
}

/// The number of cuts, where all covers stand.
fn cuts_step<N: Exact>(
    alloc: Global,
    measured: &Measured,
    printed: Printed<N>,
    covers: Vec<Cover>,
    item: &Item<N>,
) -> Result<Stage<N>, Stop>
    requires stage { IsStageOf measured.now (covers_value N.rational measured.now.net printed covers.items) }
    requires all { length measured.now.net.commodities ≤ length covers.items }
    ensures { Steps (limit_of N.WIDTH) measured.now (covers_value N.rational measured.now.net printed covers.items)
        (item_of N.rational item.now) (step_value N.rational measured.now.net result) }
{
    let left = cuts_line(measured.instance(), &printed, &covers, item)?;
    let known = Box::new(
        alloc,
        Known {
            head: printed.head,
            covers,
            cuts: Vec::new(alloc),
        },
    )?;
    Ok(Stage::Cuts { known, left })
}

/// How many labels the cover of commodity k has.
fn cover_line<N: Exact>(k: u32, item: &Item<N>) -> Result<u32, Rule>
    ensures { result ≡ cover_line k (item_of N.rational item.now) }
{
    match item {
        Item::Cover { commodity, labels } => {
            if *commodity != k {
                Err(Rule::Order)
            } else if *labels > 65_536 {
                Err(Rule::Cover(CoverFault::TooManyLabels))
            } else {
                Ok(*labels)
            }
        }
        _ => Err(Rule::Order),
    }
}

/// A label, or the toll-free walk where all labels stand.
pub fn label_step<N: Exact>(
    alloc: Global,
    measured: &Measured,
    printed: Box<Printed<N>>,
    cover: Box<OpenCover>,
    item: Item<N>,
) -> Result<Stage<N>, Stop>
    requires stage { IsStageOf measured.now (labels_value N.rational measured.now.net printed.value cover.value) }
    ensures { Steps (limit_of N.WIDTH) measured.now (labels_value N.rational measured.now.net printed.value cover.value)
        (item_of N.rational item) (step_value N.rational measured.now.net result) }
{
    if cover.left == 0 {
        free_step(alloc, measured, printed, Box::into_inner(cover), item)
    } else if cover.taken == 0 {
        first_label(measured, printed, cover, &item)
    } else {
        later_label(measured, printed, cover, &item)
    }
}

/// The first label, which is the start.
fn first_label<N: Exact>(
    measured: &Measured,
    printed: Box<Printed<N>>,
    cover: Box<OpenCover>,
    item: &Item<N>,
) -> Result<Stage<N>, Stop>
    requires stage { IsStageOf measured.now (labels_value N.rational measured.now.net printed.value cover.value) }
    requires some { 0 < cover.value.left }
    requires first { cover.value.taken ≡ 0 }
    ensures { Steps (limit_of N.WIDTH) measured.now (labels_value N.rational measured.now.net printed.value cover.value)
        (item_of N.rational item.now) (step_value N.rational measured.now.net result) }
{
    match item {
        Item::Start => start_step(measured, printed, cover),
        _ => Err(Stop::Broken(Rule::Order)),
    }
}

/// A later label, which goes on from one above it.
fn later_label<N: Exact>(
    measured: &Measured,
    printed: Box<Printed<N>>,
    cover: Box<OpenCover>,
    item: &Item<N>,
) -> Result<Stage<N>, Stop>
    requires stage { IsStageOf measured.now (labels_value N.rational measured.now.net printed.value cover.value) }
    requires some { 0 < cover.value.left }
    requires later { 0 < cover.value.taken }
    ensures { Steps (limit_of N.WIDTH) measured.now (labels_value N.rational measured.now.net printed.value cover.value)
        (item_of N.rational item.now) (step_value N.rational measured.now.net result) }
{
    match item {
        Item::Step { parent, arc } => {
            let step = StepDraft {
                parent: *parent,
                arc: *arc,
            };
            next_step(measured, printed, cover, step)
        }
        _ => Err(Stop::Broken(Rule::Order)),
    }
}

/// The start, which is the first label.
fn start_step<N: Exact>(
    measured: &Measured,
    printed: Box<Printed<N>>,
    mut cover: Box<OpenCover>,
) -> Result<Stage<N>, Stop>
    requires stage { IsStageOf measured.now (labels_value N.rational measured.now.net printed.value cover.value) }
    requires some { 0 < cover.value.left }
    requires first { cover.value.taken ≡ 0 }
    ensures { Steps (limit_of N.WIDTH) measured.now (labels_value N.rational measured.now.net printed.value cover.value)
        Item.Start (step_value N.rational measured.now.net result) }
{
    let open = &mut *cover;
    let instance = measured.instance();
    let potentials = measured.potentials(open.covers.len() as u32);
    match open.draft.start(instance, potentials) {
        Ok(()) => {
            open.taken += 1;
            open.left -= 1;
            Ok(Stage::Labels { printed, cover })
        }
        Err(fault) => Err(stop_of_fault(fault)),
    }
}

/// A label that goes on from one above it.
fn next_step<N: Exact>(
    measured: &Measured,
    printed: Box<Printed<N>>,
    mut cover: Box<OpenCover>,
    step: StepDraft,
) -> Result<Stage<N>, Stop>
    requires stage { IsStageOf measured.now (labels_value N.rational measured.now.net printed.value cover.value) }
    requires some { 0 < cover.value.left }
    requires later { 0 < cover.value.taken }
    ensures { Steps (limit_of N.WIDTH) measured.now (labels_value N.rational measured.now.net printed.value cover.value)
        (Item.Step step.parent step.arc) (step_value N.rational measured.now.net result) }
{
    let open = &mut *cover;
    let instance = measured.instance();
    let potentials = measured.potentials(open.covers.len() as u32);
    match open.draft.step(instance, potentials, step) {
        Ok(()) => {
            open.taken += 1;
            open.left -= 1;
            Ok(Stage::Labels { printed, cover })
        }
        Err(fault) => Err(stop_of_fault(fault)),
    }
}

/// The toll-free walk, which closes the cover.
fn free_step<N: Exact>(
    alloc: Global,
    measured: &Measured,
    printed: Box<Printed<N>>,
    cover: OpenCover,
    item: Item<N>,
) -> Result<Stage<N>, Stop>
    requires stage { IsStageOf measured.now (labels_value N.rational measured.now.net printed.value cover) }
    requires all { cover.left ≡ 0 }
    ensures { Steps (limit_of N.WIDTH) measured.now (labels_value N.rational measured.now.net printed.value cover)
        (item_of N.rational item) (step_value N.rational measured.now.net result) }
{
    let Item::Free { arcs } = item else {
        return Err(Stop::Broken(Rule::Order));
    };
    let OpenCover {
        mut covers,
        draft,
        ..
    } = cover;
    let instance = measured.instance();
    let potentials = measured.potentials(covers.len() as u32);
    let walk = Walk {
        arcs: arcs.into_entries(),
    };
    let closed = match draft.close(alloc, instance, potentials, walk) {
        Ok(closed) => closed,
        Err(fault) => return Err(stop_of_fault(fault)),
    };
    if count_paths(&covers) + closed.paths().len() > 2_000 {
        return Err(Stop::Broken(Rule::TooManyPaths));
    }
    covers.push(closed)?;
    Ok(Stage::Covers { printed, covers })
}

/// How many paths some covers have together.
fn count_paths(covers: &[Cover]) -> usize
    requires { path_total covers.now ≤ 2000 }
    ensures { result ≡ path_total covers.now }
{
    let mut count = 0;
    for cover in covers {
        count += cover.paths().len();
    }
    count
}

/// What a fault of a cover breaks, if it is not want of memory.
fn stop_of_fault(fault: CoverFault) -> Stop
    ensures { result ≡ stop_of_fault fault }
{
    match fault {
        CoverFault::Memory => Stop::Memory,
        fault => Stop::Broken(Rule::Cover(fault)),
    }
}
