//! The stages of the cuts: one line at each.

ghost use Rattle.std.specs.Prelude.{◌≡◌, ◌<◌, ◌+◌, [], map, IfOk};
ghost use Rattle.npp_frac.specs.Fits.{limit_of};
ghost use Rattle.npp_rows.specs.Caps.{path_model};
ghost use Rattle.npp_rows.specs.Cuts.{IsCut};
ghost use Rattle.npp_rows.specs.Derivations.{derivation_verdict};
ghost use Rattle.npp_rows.specs.Meaning.{cut_value, multiplier_value, derivation_value};
ghost use Rattle.npp_tree.specs.Items.{item_of};
ghost use Rattle.npp_check.specs.CutLines.{derived};
ghost use Rattle.npp_check.specs.Stages.{cut_by, from_stage, from_cut_multipliers};
ghost use Rattle.npp_check.specs.Standing.{AreCutsBut};
ghost use Rattle.npp_check.specs.StageValue.{head_value, cuts_value, cut_value_at, step_value};
ghost use Rattle.npp_check.specs.Steps.{Steps, Leads, IsStageOf};
ghost use Rattle.npp_check.specs.Judges.{Judges};
ghost use Rattle.npp_check.specs.Stops.{stop_of_cut_fault};

use crate::block::{CutBlock, CutKind};
use crate::known::Known;
use crate::measured::Measured;
use crate::refusal::Rule;
use crate::root_step::tree_step;
use crate::stage::Stage;
use crate::stop::Stop;
use npp_frac::Exact;
use npp_net::{Instance, Listed};
use npp_rows::{CutFault, CutRow, Derivation, Multiplier, check_derivation};
use npp_tree::Item;
use std::alloc::Global;

/// A cut, or the head of the tree where all cuts stand.
pub fn cut_step<N: Exact>(
    alloc: Global,
    measured: &Measured,
    known: Box<Known<N>>,
    left: u32,
    item: Item<N>,
) -> Result<Stage<N>, Stop>
    requires stage { IsStageOf measured.now (cuts_value N.rational known.value left) }
    ensures { Steps (limit_of N.WIDTH) measured.now (cuts_value N.rational known.value left) (item_of N.rational item) (step_value N.rational measured.now.net result) }
{
    if left == 0 {
        tree_step(alloc, measured, Box::into_inner(known), &item)
    } else {
        begin_step(alloc, measured, known, left, item)
    }
}

/// The first line of a cut.
fn begin_step<N: Exact>(
    alloc: Global,
    measured: &Measured,
    known: Box<Known<N>>,
    left: u32,
    item: Item<N>,
) -> Result<Stage<N>, Stop>
    requires stage { IsStageOf measured.now (cuts_value N.rational known.value left) }
    requires some { 0 < left }
    ensures { Steps (limit_of N.WIDTH) measured.now (cuts_value N.rational known.value left) (item_of N.rational item) (step_value N.rational measured.now.net result) }
{
    match item {
        Item::Conflict { k, p, l, q, lines } => {
            let kind = CutKind::Conflict { k, p, l, q };
            begin_cut(
                alloc,
                measured,
                known,
                left - 1,
                new_block(alloc, kind, lines),
            )
        }
        Item::Pair { k, p, l, cuts } => {
            let cut = Derivation::Pair { k, p, l, cuts };
            end_cut(alloc, measured, known, left - 1, cut)
        }
        Item::Round { lines } => {
            let kind = CutKind::Round;
            begin_cut(
                alloc,
                measured,
                known,
                left - 1,
                new_block(alloc, kind, lines),
            )
        }
        _ => Err(Stop::Broken(Rule::Order)),
    }
}

/// A block of so many multipliers.
fn new_block<N: Exact>(alloc: Global, kind: CutKind, lines: u32) -> CutBlock<N>
    ensures kind { result.kind ≡ kind }
    ensures lines { result.lines ≡ lines }
    ensures none { result.multipliers.items ≡ [] }
{
    CutBlock {
        kind,
        lines,
        multipliers: Vec::new(alloc),
    }
}

/// The stage behind these multipliers of a cut: that of the next one, or where they are all that behind the cut.
fn begin_cut<N: Exact>(
    alloc: Global,
    measured: &Measured,
    known: Box<Known<N>>,
    left: u32,
    block: CutBlock<N>,
) -> Result<Stage<N>, Stop>
    requires { AreCutsBut measured.now.net known.value.covers.items (left + 1) (map (cut_value N.rational) known.value.cuts.items) }
    ensures { Leads (limit_of N.WIDTH) measured.now (from_stage (limit_of N.WIDTH) measured.now (cut_value_at N.rational known.value left block)) (step_value N.rational measured.now.net result) }
{
    if block.lines > 0 {
        return Ok(Stage::CutMultipliers { left, known, block });
    }
    let cut = derivation_of(block.kind, block.multipliers);
    end_cut(alloc, measured, known, left, cut)
}

/// A multiplier of a cut.
pub fn cut_multiplier_step<N: Exact>(
    alloc: Global,
    measured: &Measured,
    known: Box<Known<N>>,
    left: u32,
    mut block: CutBlock<N>,
    item: &Item<N>,
) -> Result<Stage<N>, Stop>
    requires stage { IsStageOf measured.now (cut_value_at N.rational known.value left block) }
    ensures { Steps (limit_of N.WIDTH) measured.now (cut_value_at N.rational known.value left block) (item_of N.rational item.now) (step_value N.rational measured.now.net result) }
{
    let Item::Mult(multiplier) = item else {
        return Err(Stop::Broken(Rule::Order));
    };
    block.multipliers.push(*multiplier)?;
    block.lines -= 1;
    begin_cut(alloc, measured, known, left, block)
}

/// The stage behind a cut, where it follows from those above it.
fn end_cut<N: Exact>(
    alloc: Global,
    measured: &Measured,
    mut known: Box<Known<N>>,
    left: u32,
    cut: Derivation<N>,
) -> Result<Stage<N>, Stop>
    requires { AreCutsBut measured.now.net known.value.covers.items (left + 1) (map (cut_value N.rational) known.value.cuts.items) }
    ensures { Leads (limit_of N.WIDTH) measured.now
        (from_cut_multipliers (limit_of N.WIDTH) measured.now (head_value N.rational known.value.head) known.value.covers.items left
        (map (cut_value N.rational) known.value.cuts.items) (λ y. derivation_value N.rational cut) 0 [])
        (step_value N.rational measured.now.net result) }
{
    let row = derived_row(alloc, measured.instance(), &known, &cut)?;
    known.cuts.push(row)?;
    Ok(Stage::Cuts { known, left })
}

/// The row of a cut behind those above it.
fn derived_row<N: Exact>(
    alloc: Global,
    instance: &Instance,
    known: &Known<N>,
    cut: &Derivation<N>,
) -> Result<CutRow<N>, Stop>
    requires { AreCutsBut instance.now known.now.covers.items 0 (map (cut_value N.rational) known.now.cuts.items) }
    ensures said { Judges (cut_value N.rational) result (derived (derivation_verdict (limit_of N.WIDTH) (path_model instance.now known.now.covers.items)
        (map (cut_value N.rational) known.now.cuts.items) (derivation_value N.rational cut.now))) }
    ensures cut { IfOk result (λ row. IsCut (path_model instance.now known.now.covers.items) (cut_value N.rational row)) }
{
    match check_derivation(alloc, instance, &known.covers, &known.cuts, cut) {
        Ok(row) => Ok(row),
        Err(fault) => Err(stop_of_cut_fault(fault)),
    }
}

/// What a fault of a cut breaks, if it is not want of memory.
fn stop_of_cut_fault<N: Exact>(fault: CutFault<N>) -> Stop
    ensures { result ≡ stop_of_cut_fault fault }
{
    match fault {
        CutFault::Memory => Stop::Memory,
        CutFault::Overflow(_) => Stop::Broken(Rule::Overflow),
        _ => Stop::Broken(Rule::Cut),
    }
}

/// The cut of a kind by its multipliers.
fn derivation_of<N: Exact>(kind: CutKind, multipliers: Vec<Multiplier<N>>) -> Derivation<N>
    ensures { derivation_value N.rational result ≡ cut_by kind (map (multiplier_value N.rational) multipliers.items) }
{
    let y = Listed::of(multipliers);
    match kind {
        CutKind::Conflict { k, p, l, q } => Derivation::Conflict { k, p, l, q, y },
        CutKind::Round => Derivation::Round { y },
    }
}
