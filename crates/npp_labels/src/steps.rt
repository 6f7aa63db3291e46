//! The steps of the search.

ghost use Rattle.std.specs.Prelude.{◌≡◌, ◌+◌, ◌<◌, ◌≤◌, [], ◌∷◌, length, All, IfOk, OnOk, MatchOption, false, IsPermutation, nat_lt};
ghost use Rattle.npp_net.specs.Network.{IsNetwork, arc_at};
ghost use Rattle.npp_short.specs.Reach.{cost_at};
ghost use Rattle.npp_cover.specs.Labels.{label_at, IsCapped};
ghost use Rattle.npp_cover.specs.Fault.{can_win};
ghost use Rattle.npp_cover.specs.Needed.{AreNeeded};
ghost use Rattle.npp_labels.specs.Search.{IsExtension, IsTried, IsUntried, TriesDown, WaitsNext, Advances, AreWaiting, TakesFirst, ways_of, label_of};

use crate::family::Family;
use crate::pending::{Pending, Taken};
use crate::queue::Queue;
use npp_cover::{Label, NeededArcs, StepDraft, can_win, has_arc, label_after};
use npp_net::{ArcId, Instance, Memory};
use npp_short::Potentials;

/// The label after the one of this number, by the arc, as it waits with so many arcs left, or None where it cannot win.
fn extension(
    instance: &Instance,
    potentials: &Potentials,
    free: u64,
    family: &Family,
    number: u32,
    arc: ArcId,
    left: usize,
) -> Option<Pending>
    requires network { IsNetwork instance.now }
    requires potentials { length potentials.now ≡ instance.now.nodes }
    requires number { number < length family.now.labels }
    requires arc { arc.0 < length instance.now.arcs }
    ensures { MatchOption result
        (can_win (cost_at potentials.now) free (arc_at instance.now.arcs arc).head.0 ((label_at family.now.labels number).cost + (arc_at instance.now.arcs arc).cost) ≡ false)
        (λ p. IsExtension instance.now.arcs (cost_at potentials.now) free (label_at family.now.labels number) number arc p × (p.left ≡ left)) }
{
    let step = StepDraft {
        parent: number,
        arc,
    };
    let next = label_after(instance, family.label(number), step);
    if !can_win(potentials, free, next.node, next.cost) {
        return None;
    }
    let more = potentials.at(next.node)?;
    Some(Pending {
        bound: next.cost + more,
        size: next.tolls.size(),
        cost: next.cost,
        node: next.node.0,
        set: next.tolls.number(),
        parent: number,
        arc: arc.0,
        left,
    })
}

/// The label that waits.
fn label_of(instance: &Instance, family: &Family, next: Pending) -> Label
    requires parent { next.parent < length family.now.labels }
    requires arc { next.arc < length instance.now.arcs }
    ensures { IsCapped (label_of instance.now.arcs family.now.labels next) result }
{
    let step = StepDraft {
        parent: next.parent,
        arc: ArcId(next.arc),
    };
    label_after(instance, family.label(next.parent), step)
}

/// The label after the one of this number, by the arc, where it can win, uses no toll twice and is not dominated.
fn untried(
    instance: &Instance,
    potentials: &Potentials,
    free: u64,
    family: &Family,
    number: u32,
    arc: ArcId,
    left: usize,
) -> Option<Pending>
    requires network { IsNetwork instance.now }
    requires potentials { length potentials.now ≡ instance.now.nodes }
    requires nodes { family.now.nodes ≡ instance.now.nodes }
    requires number { number < length family.now.labels }
    requires arc { arc.0 < length instance.now.arcs }
    requires tail { (arc_at instance.now.arcs arc).tail.0 ≡ (label_at family.now.labels number).node.0 }
    ensures { MatchOption result
        (IsTried instance.now.arcs (cost_at potentials.now) free family.now.labels number arc)
        (IsUntried instance.now.arcs (cost_at potentials.now) free family.now.labels number arc left) }
{
    if has_arc(instance, family.label(number).tolls, arc) {
        return None;
    }
    let next = extension(instance, potentials, free, family, number, arc, left)?;
    let label = label_of(instance, family, next);
    if family.dominates(&label) {
        return None;
    }
    Some(next)
}

/// Whether a cost and the least cost onward are below the toll-free cost together.
fn is_below(free: u64, cost: u64, onward: u64) -> bool
    ensures { result ≡ nat_lt (cost + onward) free }
{
    cost < free && onward < free - cost
}

/// The extension of the label of this number by the first of its last needed arcs, as many as are left, that is to wait. From
/// the first on that cannot win none can, since the least costs on by them rise.
fn next_untried(
    instance: &Instance,
    potentials: &Potentials,
    free: u64,
    needed: &NeededArcs,
    family: &Family,
    number: u32,
    left: usize,
) -> Option<Pending>
    requires network { IsNetwork instance.now }
    requires potentials { length potentials.now ≡ instance.now.nodes }
    requires needed { AreNeeded instance.now.arcs (cost_at potentials.now) free instance.now.nodes needed.now }
    requires nodes { family.now.nodes ≡ instance.now.nodes }
    requires number { number < length family.now.labels }
    requires node { (label_at family.now.labels number).node.0 < instance.now.nodes }
    requires left { left ≤ length (ways_of needed.now family.now.labels number) }
    ensures { MatchOption result
        (TriesDown instance.now.arcs (cost_at potentials.now) free needed.now family.now.labels number left 0)
        (WaitsNext instance.now.arcs (cost_at potentials.now) free needed.now family.now.labels number left) }
{
    let from = family.label(number);
    let ways = needed.at(from.node);
    let mut rest = left;
    while rest > 0 {
        let way = ways[ways.len() - rest];
        if !is_below(free, from.cost, way.onward) {
            return None;
        }
        let arc = ArcId(way.arc);
        let next = untried(instance, potentials, free, family, number, arc, rest);
        if next.is_some() {
            return next;
        }
        rest -= 1;
    }
    None
}

/// Lets the label of this number wait by the next of its last needed arcs, as many as are left, where one is to be tried.
pub fn advance(
    instance: &Instance,
    potentials: &Potentials,
    free: u64,
    needed: &NeededArcs,
    family: &Family,
    number: u32,
    left: usize,
    pending: &mut Queue,
) -> Result<(), Memory>
    requires network { IsNetwork instance.now }
    requires potentials { length potentials.now ≡ instance.now.nodes }
    requires needed { AreNeeded instance.now.arcs (cost_at potentials.now) free instance.now.nodes needed.now }
    requires nodes { family.now.nodes ≡ instance.now.nodes }
    requires number { number < length family.now.labels }
    requires node { (label_at family.now.labels number).node.0 < instance.now.nodes }
    requires left { left ≤ length (ways_of needed.now family.now.labels number) }
    ensures { OnOk result (Advances instance.now.arcs (cost_at potentials.now) free needed.now family.now.labels number left pending.old pending.new) }
{
    let next = next_untried(instance, potentials, free, needed, family, number, left);
    add(pending, next)?;
    Ok(())
}

/// Lets the label wait, if there is one.
fn add(pending: &mut Queue, next: Option<Pending>) -> Result<(), Memory>
    ensures { OnOk result (MatchOption next (pending.new ≡ pending.old) (λ p. IsPermutation (p ∷ pending.old) pending.new)) }
{
    match next {
        Some(next) => pending.push(next),
        None => Ok(()),
    }
}

/// Takes the first that waits and that no label dominates. The labels of those before it wait by their next arcs.
pub fn take_label(
    instance: &Instance,
    potentials: &Potentials,
    free: u64,
    needed: &NeededArcs,
    family: &Family,
    pending: &mut Queue,
) -> Result<Option<Taken>, Memory>
    requires network { IsNetwork instance.now }
    requires potentials { length potentials.now ≡ instance.now.nodes }
    requires needed { AreNeeded instance.now.arcs (cost_at potentials.now) free instance.now.nodes needed.now }
    requires nodes { family.now.nodes ≡ instance.now.nodes }
    requires labels { All (λ l. l.node.0 < instance.now.nodes) family.now.labels }
    requires waiting { AreWaiting instance.now.arcs (cost_at potentials.now) free needed.now family.now.labels (length family.now.labels) pending.old }
    ensures { IfOk result (λ taken. MatchOption taken
        (AreWaiting instance.now.arcs (cost_at potentials.now) free needed.now family.now.labels (length family.now.labels) [])
        (TakesFirst instance.now.arcs (cost_at potentials.now) free needed.now family.now.labels pending.new)) }
{
    while let Some(next) = pending.pop() {
        let label = label_of(instance, family, next);
        if !family.dominates(&label) {
            return Ok(Some(Taken {
                waited: next,
                label,
            }));
        }
        let left = next.left - 1;
        advance(
            instance,
            potentials,
            free,
            needed,
            family,
            next.parent,
            left,
            pending,
        )?;
    }
    Ok(None)
}

/// Lets the label of this number wait by the first of its needed arcs that is to be tried.
pub fn start_from(
    instance: &Instance,
    potentials: &Potentials,
    free: u64,
    needed: &NeededArcs,
    family: &Family,
    number: u32,
    pending: &mut Queue,
) -> Result<(), Memory>
    requires network { IsNetwork instance.now }
    requires potentials { length potentials.now ≡ instance.now.nodes }
    requires needed { AreNeeded instance.now.arcs (cost_at potentials.now) free instance.now.nodes needed.now }
    requires nodes { family.now.nodes ≡ instance.now.nodes }
    requires number { number < length family.now.labels }
    requires node { (label_at family.now.labels number).node.0 < instance.now.nodes }
    ensures { OnOk result (Advances instance.now.arcs (cost_at potentials.now) free needed.now family.now.labels number
        (length (ways_of needed.now family.now.labels number)) pending.old pending.new) }
{
    let left = needed.at(family.label(number).node).len();
    advance(
        instance, potentials, free, needed, family, number, left, pending,
    )
}
