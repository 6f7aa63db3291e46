//! The useful covers of all commodities.

ghost use Rattle.std.specs.Prelude.{◌≡◌, ◌⊎◌, ◌<◌, ◌≤◌, length, IfOk, IfErr, MatchResult};
ghost use Rattle.npp_net.specs.Distance.{IsSpan};
ghost use Rattle.npp_cover.specs.Useful.{commodity_at};
ghost use Rattle.npp_bounds.specs.Spans.{AreSpans};
ghost use Rattle.npp_labels.specs.declared.covers.CoversRefusal.{CoversRefusal};
ghost use Rattle.npp_labels.specs.Covers.{IsUsefulCover, AreUsefulCovers, HasTooManyLabels, IsCoversRefusal, PassesNoLimit, path_total};

use crate::commodity::plan_of;
use crate::refusal::LabelRefusal;
use npp_cover::{Cover, CoverPlan};
use npp_net::{Instance, Memory, Span};
use npp_short::distances_to;
use std::alloc::{AllocFailed, Global};
use thiserror::Error;

/// Why the useful covers of an instance are not listed.
#[derive(Clone, Copy, Debug, PartialEq, Eq, Error)]
pub enum CoversRefusal {
    /// The commodity of this number is the first at which a limit is passed: it has over 65,536 useful labels.
    #[error("over 65,536 useful labels of commodity {0}")]
    TooManyLabels(u32),
    /// The commodity of this number is the first at which a limit is passed: the commodities up to it have over 2,000
    /// useful paths together.
    #[error("over 2,000 useful paths up to commodity {0}")]
    TooManyPaths(u32),
    /// Memory was wanting.
    #[error("no memory")]
    Memory,
}

impl From<Memory> for CoversRefusal {
    ghost use Rattle.std.specs.Prelude.{◌≡◌};
    ghost use Rattle.npp_labels.specs.declared.covers.CoversRefusal.TheVariants.{Memory};

    ghost from_gives = { λ _ e. e ≡ Memory };

    fn from(_: Memory) -> Self {
        CoversRefusal::Memory
    }
}

impl<T: Drop> From<AllocFailed<T>> for CoversRefusal {
    ghost use Rattle.std.specs.Prelude.{◌≡◌};
    ghost use Rattle.npp_labels.specs.declared.covers.CoversRefusal.TheVariants.{Memory};

    ghost from_gives = { λ _ e. e ≡ Memory };

    fn from(_: AllocFailed<T>) -> Self {
        CoversRefusal::Memory
    }
}

/// The most useful paths of all commodities together.
const MAX_PATHS: usize = 2_000;

/// The useful cover of each commodity, in order, or the first commodity at which a limit is passed.
///
/// The spans are those of the instance, one for each commodity in order.
pub fn useful_all(
    alloc: Global,
    instance: &Instance,
    spans: &[Span],
) -> Result<Vec<Cover>, CoversRefusal>
    requires { AreSpans instance.now.arcs instance.now.commodities spans.now }
    ensures covers { IfOk result (λ covers. AreUsefulCovers instance.now.arcs instance.now.commodities covers.items) }
    ensures limit { IfOk result (λ covers. path_total covers.items ≤ 2000) }
    ensures kept { IfOk result (λ _. PassesNoLimit instance.now.arcs instance.now.commodities) }
    ensures refused { IfErr result (IsCoversRefusal instance.now.arcs instance.now.commodities) }
{
    let mut covers = Vec::new(alloc);
    let mut paths = 0;
    for k in 0..instance.commodities().len() as u32 {
        let plan = useful_plan(alloc, instance, k, spans[k as usize])?;
        paths += plan.path_count();
        if paths > MAX_PATHS {
            return Err(CoversRefusal::TooManyPaths(k));
        }
        covers.push(plan.into_cover(alloc)?)?;
    }
    Ok(covers)
}

/// The useful cover of commodity `k`, before the walks of its paths are built.
fn useful_plan(
    alloc: Global,
    instance: &Instance,
    k: u32,
    span: Span,
) -> Result<CoverPlan, CoversRefusal>
    requires k { k < length instance.now.commodities }
    requires span { IsSpan instance.now.arcs (commodity_at instance.now k) span }
    ensures { MatchResult result
        (IsUsefulCover instance.now.arcs (commodity_at instance.now k))
        (λ e. (e ≡ CoversRefusal.Memory)
        ⊎ ((e ≡ CoversRefusal.TooManyLabels k) × HasTooManyLabels instance.now.arcs (commodity_at instance.now k))) }
{
    let destination = instance.commodities()[k as usize].destination;
    let potentials = distances_to(alloc, instance, destination, true)?;
    match plan_of(alloc, instance, k, span, &potentials) {
        Ok(plan) => Ok(plan),
        Err(LabelRefusal::TooManyLabels) => Err(CoversRefusal::TooManyLabels(k)),
        Err(LabelRefusal::Memory) => Err(CoversRefusal::Memory),
    }
}
