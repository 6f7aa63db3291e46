//! The useful labels of a commodity, as a cover.

ghost use Rattle.std.specs.Prelude.{◌≡◌, ◌⊎◌, ◌<◌, length, IfOk, IfErr, true, false};
ghost use Rattle.npp_net.specs.Network.{IsNetwork, IsCommodity};
ghost use Rattle.npp_net.specs.Distance.{IsSpan, HasNoFreePath};
ghost use Rattle.npp_short.specs.Potentials.{AreDistances};
ghost use Rattle.npp_short.specs.Shortest.{IsShortestWalk};
ghost use Rattle.npp_cover.specs.Useful.{commodity_at};
ghost use Rattle.npp_cover.specs.Replaces.{IsCoverOf};
ghost use Rattle.npp_labels.specs.declared.refusal.LabelRefusal.{LabelRefusal};
ghost use Rattle.npp_labels.specs.Useful.{AreTheUseful, HasTooMany};
ghost use Rattle.npp_labels.specs.Covers.{AreSimple};

use crate::best_first::search;
use crate::refusal::LabelRefusal;
use npp_cover::{Cover, CoverPlan};
use npp_net::{Commodity, Instance, Memory, Span, Walk};
use npp_short::{Potentials, distances_to, walk_from};
use std::alloc::Global;

/// The cover of commodity `k` whose labels are exactly its useful labels, each once.
///
/// The span is that of the commodity, and the potentials are those to its destination with tolls. No walk of a label or of
/// a path comes to a node twice. The first label is the start, and each other one comes after the one that it goes on from;
/// of their order nothing else is promised.
pub fn useful(
    alloc: Global,
    instance: &Instance,
    k: u32,
    span: Span,
    potentials: &Potentials,
) -> Result<Cover, LabelRefusal>
    requires k { k < length instance.now.commodities }
    requires span { IsSpan instance.now.arcs (commodity_at instance.now k) span }
    requires potentials { AreDistances instance.now.arcs true instance.now.nodes (commodity_at instance.now k).destination.0 potentials.now }
    ensures labels { IfOk result (λ c. AreTheUseful instance.now.arcs (commodity_at instance.now k) span.free c.labels) }
    ensures few { IfOk result (λ _. HasTooMany instance.now.arcs (commodity_at instance.now k) span.free → ⊥) }
    ensures cover { IfOk result (IsCoverOf instance.now.arcs (commodity_at instance.now k) span) }
    ensures simple { IfOk result (AreSimple instance.now.arcs (commodity_at instance.now k).origin.0) }
    ensures refused { IfErr result (λ e. (e ≡ LabelRefusal.Memory)
        ⊎ ((e ≡ LabelRefusal.TooManyLabels) × HasTooMany instance.now.arcs (commodity_at instance.now k) span.free)) }
{
    let plan = plan_of(alloc, instance, k, span, potentials)?;
    Ok(plan.into_cover(alloc)?)
}

/// The same before the walks of its paths are built.
pub fn plan_of(
    alloc: Global,
    instance: &Instance,
    k: u32,
    span: Span,
    potentials: &Potentials,
) -> Result<CoverPlan, LabelRefusal>
    requires k { k < length instance.now.commodities }
    requires span { IsSpan instance.now.arcs (commodity_at instance.now k) span }
    requires potentials { AreDistances instance.now.arcs true instance.now.nodes (commodity_at instance.now k).destination.0 potentials.now }
    ensures labels { IfOk result (λ c. AreTheUseful instance.now.arcs (commodity_at instance.now k) span.free c.labels) }
    ensures few { IfOk result (λ _. HasTooMany instance.now.arcs (commodity_at instance.now k) span.free → ⊥) }
    ensures cover { IfOk result (IsCoverOf instance.now.arcs (commodity_at instance.now k) span) }
    ensures simple { IfOk result (AreSimple instance.now.arcs (commodity_at instance.now k).origin.0) }
    ensures refused { IfErr result (λ e. (e ≡ LabelRefusal.Memory)
        ⊎ ((e ≡ LabelRefusal.TooManyLabels) × HasTooMany instance.now.arcs (commodity_at instance.now k) span.free)) }
{
    let pair = instance.commodities()[k as usize];
    let labels = search(alloc, instance, potentials, span, pair)?;
    let free = free_walk(alloc, instance, pair)?;
    Ok(CoverPlan::of_labels(alloc, instance, k, span, labels, free)?)
}

/// A toll-free walk of least cost that comes to no node twice.
fn free_walk(alloc: Global, instance: &Instance, pair: Commodity) -> Result<Walk, Memory>
    requires pair { IsCommodity instance.now.nodes pair }
    requires free_path { HasNoFreePath instance.now.arcs pair → ⊥ }
    ensures { IfOk result (λ w. IsShortestWalk instance.now.arcs false pair.origin.0 pair.destination.0 w.arcs.items) }
{
    let potentials = distances_to(alloc, instance, pair.destination, false)?;
    match walk_from(
        alloc,
        instance,
        &potentials,
        pair.origin,
        pair.destination,
        false,
    )? {
        Some(walk) => Ok(walk),
        None => unreachable!(),
    }
}
