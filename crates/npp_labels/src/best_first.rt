//! The best-first search for useful labels.

ghost use Rattle.std.specs.Prelude.{◌≡◌, ◌⊎◌, ◌<◌, length, MatchResult, true};
ghost use Rattle.npp_net.specs.Network.{IsNetwork, IsCommodity};
ghost use Rattle.npp_net.specs.Distance.{IsSpan};
ghost use Rattle.npp_short.specs.Potentials.{AreDistances};
ghost use Rattle.npp_short.specs.Reach.{cost_at};
ghost use Rattle.npp_cover.specs.Labels.{start_label};
ghost use Rattle.npp_cover.specs.Fault.{can_win};
ghost use Rattle.npp_cover.specs.Needed.{AreNeeded};
ghost use Rattle.npp_labels.specs.declared.refusal.LabelRefusal.{LabelRefusal};
ghost use Rattle.npp_labels.specs.Search.{AreFound};
ghost use Rattle.npp_labels.specs.Useful.{HasTooMany};

use crate::family::Family;
use crate::queue::Queue;
use crate::refusal::LabelRefusal;
use crate::steps::{advance, start_from, take_label};
use npp_cover::{Label, NeededArcs, can_win};
use npp_net::{Commodity, Instance, NodeId, Span, TollSet};
use npp_short::Potentials;
use std::alloc::Global;

/// The most useful labels of a commodity.
const MAX_LABELS: usize = 65_536;

/// The useful labels of a commodity.
///
/// A label is taken where no label that was taken before dominates it. Since those that could dominate it come before it
/// in the order of the queue, it is useful.
pub fn search(
    alloc: Global,
    instance: &Instance,
    potentials: &Potentials,
    span: Span,
    pair: Commodity,
) -> Result<Vec<Label>, LabelRefusal>
    requires network { IsNetwork instance.now }
    requires pair { IsCommodity instance.now.nodes pair }
    requires span { IsSpan instance.now.arcs pair span }
    requires potentials { AreDistances instance.now.arcs true instance.now.nodes pair.destination.0 potentials.now }
    ensures { MatchResult result
        (λ v. AreFound instance.now.arcs pair span v.items)
        (λ e. (e ≡ LabelRefusal.Memory) ⊎ ((e ≡ LabelRefusal.TooManyLabels) × HasTooMany instance.now.arcs pair span.free)) }
{
    if !can_win(potentials, span.free, pair.origin, 0) {
        return Ok(Vec::new(alloc));
    }
    let needed = NeededArcs::new(alloc, instance, potentials, span.free)?;
    take_all(alloc, instance, potentials, span, pair, &needed)
}

/// The useful labels of a commodity whose start can win.
fn take_all(
    alloc: Global,
    instance: &Instance,
    potentials: &Potentials,
    span: Span,
    pair: Commodity,
    needed: &NeededArcs,
) -> Result<Vec<Label>, LabelRefusal>
    requires network { IsNetwork instance.now }
    requires pair { IsCommodity instance.now.nodes pair }
    requires potentials { AreDistances instance.now.arcs true instance.now.nodes pair.destination.0 potentials.now }
    requires needed { AreNeeded instance.now.arcs (cost_at potentials.now) span.free instance.now.nodes needed.now }
    requires start { can_win (cost_at potentials.now) span.free pair.origin.0 0 ≡ true }
    ensures { MatchResult result
        (λ v. AreFound instance.now.arcs pair span v.items)
        (λ e. (e ≡ LabelRefusal.Memory) ⊎ ((e ≡ LabelRefusal.TooManyLabels) × HasTooMany instance.now.arcs pair span.free)) }
{
    let free = span.free;
    let mut pending = Queue::new(alloc);
    let mut family = Family::new(alloc, instance.nodes())?;
    family = family.with(start_label(pair.origin))?;
    start_from(instance, potentials, free, needed, &family, 0, &mut pending)?;
    while let Some(taken) = take_label(instance, potentials, free, needed, &family, &mut pending)? {
        let number = family.len();
        if number == MAX_LABELS {
            return Err(LabelRefusal::TooManyLabels);
        }
        family = family.with(taken.label)?;
        let parent = taken.waited.parent;
        let left = taken.waited.left - 1;
        advance(
            instance,
            potentials,
            free,
            needed,
            &family,
            parent,
            left,
            &mut pending,
        )?;
        start_from(
            instance,
            potentials,
            free,
            needed,
            &family,
            number as u32,
            &mut pending,
        )?;
    }
    Ok(family.into_labels())
}

/// The origin, with no toll and no cost.
fn start_label(origin: NodeId) -> Label
    ensures { result ≡ start_label origin }
{
    Label {
        node: origin,
        tolls: TollSet::empty(),
        cost: 0,
        last: None,
        parent: 0,
    }
}
