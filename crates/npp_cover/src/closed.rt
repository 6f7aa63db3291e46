//! Whether each extension of a label is dominated.

ghost use Rattle.std.specs.Prelude.{◌≡◌, ◌+◌, ◌<◌, ◌≤◌, length, All, IfOk, IfSome};
ghost use Rattle.npp_net.specs.Network.{IsNetwork};
ghost use Rattle.npp_short.specs.Reach.{cost_at};
ghost use Rattle.npp_cover.specs.Labels.{label_at};
ghost use Rattle.npp_cover.specs.Fault.{is_open, open_arc, open_fault, Answers};
ghost use Rattle.std.specs.Bool.{OnFalse, OnTrue};
ghost use Rattle.npp_cover.specs.Dominance.{nodes_of, AnswersFor};
ghost use Rattle.npp_cover.specs.Needed.{AreNeeded, IsPassed, is_past_noted};

use crate::dominance::DominanceTable;
use crate::extend::{can_win, label_after};
use crate::fault::CoverFault;
use crate::label::{Label, StepDraft, label_at};
use crate::needed::{NeededArc, NeededArcs};
use npp_net::{ArcId, Instance, NodeId};
use npp_short::Potentials;
use std::alloc::{AllocError, Global};

/// Whether the label after this one, by this arc, can still win, and no label dominates it.
fn is_open(
    instance: &Instance,
    potentials: &Potentials,
    free: u64,
    labels: &[Label],
    table: &DominanceTable,
    number: u32,
    arc: ArcId,
) -> bool
    requires network { IsNetwork instance.now }
    requires potentials { length potentials.now ≡ instance.now.nodes }
    requires nodes { nodes_of table.now ≡ instance.now.nodes }
    requires table { AnswersFor labels.now table.now }
    requires number { number < length labels.now }
    requires arc { arc.0 < length instance.now.arcs }
    ensures { result ≡ is_open instance.now.arcs (cost_at potentials.now) free labels.now (label_at labels.now number) arc }
{
    let next = label_after(
        instance,
        label_at(labels, number),
        StepDraft {
            parent: number,
            arc,
        },
    );
    can_win(potentials, free, next.node, next.cost)
        && !table.dominates(next.node, next.tolls, next.cost)
}

/// Whether the label is open by a needed arc. Where it is not it is open by none.
fn is_open_by_needed(
    instance: &Instance,
    potentials: &Potentials,
    free: u64,
    labels: &[Label],
    table: &DominanceTable,
    needed: &NeededArcs,
    number: u32,
) -> bool
    requires network { IsNetwork instance.now }
    requires potentials { length potentials.now ≡ instance.now.nodes }
    requires needed { AreNeeded instance.now.arcs (cost_at potentials.now) free instance.now.nodes needed.now }
    requires nodes { nodes_of table.now ≡ instance.now.nodes }
    requires table { AnswersFor labels.now table.now }
    requires number { number < length labels.now }
    requires node { (label_at labels.now number).node.0 < instance.now.nodes }
    ensures { OnFalse result (open_arc instance.now.arcs (cost_at potentials.now) free labels.now (label_at labels.now number) ≡ None) }
{
    let ways = needed.at(label_at(labels, number).node);
    let mut passed = None;
    for place in 0..ways.len() {
        let way = ways[place];
        if !is_past(passed, way) {
            let arc = ArcId(way.arc);
            if is_open(instance, potentials, free, labels, table, number, arc) {
                return true;
            }
            passed = passed_after(labels, table, number, ways, place, passed);
        }
    }
    false
}

/// The arc at this place, where it is the first of three or more in a row to one head and is passed; else what was passed before.
fn passed_after(
    labels: &[Label],
    table: &DominanceTable,
    number: u32,
    ways: &[NeededArc],
    place: usize,
    before: Option<NeededArc>,
) -> Option<NeededArc>
    requires number { number < length labels.now }
    requires table { AnswersFor labels.now table.now }
    requires place { place < length ways.now }
    requires heads { All (λ e. e.head < nodes_of table.now) ways.now }
    requires before { IfSome before (IsPassed labels.now (label_at labels.now number)) }
    ensures { IfSome result (IsPassed labels.now (label_at labels.now number)) }
{
    if begins_several(ways, place) && is_passed(labels, table, number, ways[place]) {
        return Some(ways[place]);
    }
    before
}

/// Whether the arc goes to the head of the other, if there is one, and costs no less.
fn is_past(passed: Option<NeededArc>, way: NeededArc) -> bool
    ensures { result ≡ is_past_noted passed way }
{
    match passed {
        Some(other) => other.head == way.head && other.cost <= way.cost,
        None => false,
    }
}

/// Whether the arc at this place is the first of three or more in a row to one head. With two the question costs what it spares.
fn begins_several(ways: &[NeededArc], place: usize) -> bool
    requires { place < length ways.now }
    ensures { OnTrue result (place + 1 < length ways.now) }
{
    if ways.len() - place < 3 {
        return false;
    }
    let head = ways[place].head;
    let is_first = place == 0 || ways[place - 1].head != head;
    is_first && ways[place + 1].head == head && ways[place + 2].head == head
}

/// Whether the label after this one by the arc is dominated even where the arc adds no toll. Then it is so by each arc to the
/// same head that costs no less.
fn is_passed(labels: &[Label], table: &DominanceTable, number: u32, way: NeededArc) -> bool
    requires number { number < length labels.now }
    requires head { way.head < nodes_of table.now }
    requires table { AnswersFor labels.now table.now }
    ensures { OnTrue result (IsPassed labels.now (label_at labels.now number) way) }
{
    let from = label_at(labels, number);
    match from.cost.checked_add(u64::from(way.cost)) {
        Some(cost) => table.dominates(NodeId(way.head), from.tolls, cost),
        None => false,
    }
}

/// The first arc from the label's node by which it is open.
fn open_arc(
    instance: &Instance,
    potentials: &Potentials,
    free: u64,
    labels: &[Label],
    table: &DominanceTable,
    needed: &NeededArcs,
    number: u32,
) -> Option<ArcId>
    requires network { IsNetwork instance.now }
    requires potentials { length potentials.now ≡ instance.now.nodes }
    requires needed { AreNeeded instance.now.arcs (cost_at potentials.now) free instance.now.nodes needed.now }
    requires nodes { nodes_of table.now ≡ instance.now.nodes }
    requires table { AnswersFor labels.now table.now }
    requires number { number < length labels.now }
    requires node { (label_at labels.now number).node.0 < instance.now.nodes }
    ensures { result ≡ open_arc instance.now.arcs (cost_at potentials.now) free labels.now (label_at labels.now number) }
{
    if !is_open_by_needed(instance, potentials, free, labels, table, needed, number) {
        return None;
    }
    let node = label_at(labels, number).node;
    for arc in instance.leaving(node) {
        if is_open(instance, potentials, free, labels, table, number, *arc) {
            return Some(*arc);
        }
    }
    None
}

/// Judges whether each extension that can still win is dominated, by the labels in order and their arcs in order.
pub(crate) fn judge_closure(
    alloc: Global,
    instance: &Instance,
    potentials: &Potentials,
    free: u64,
    labels: &[Label],
) -> Result<(), CoverFault>
    requires network { IsNetwork instance.now }
    requires potentials { length potentials.now ≡ instance.now.nodes }
    requires nodes { All (λ l. l.node.0 < instance.now.nodes) labels.now }
    requires few { length labels.now ≤ 65536 }
    ensures { Answers result (open_fault instance.now.arcs (cost_at potentials.now) free labels.now) }
{
    let table = table_of(alloc, instance.nodes(), labels)?;
    let needed = NeededArcs::new(alloc, instance, potentials, free)?;
    for number in 0..labels.len() as u32 {
        if let Some(arc) = open_arc(instance, potentials, free, labels, &table, &needed, number) {
            return Err(CoverFault::NotClosed(number, arc));
        }
    }
    Ok(())
}

/// A table of these labels.
fn table_of(alloc: Global, nodes: u32, labels: &[Label]) -> Result<DominanceTable, AllocError>
    requires { All (λ l. l.node.0 < nodes) labels.now }
    ensures nodes { IfOk result (λ t. nodes_of t ≡ nodes) }
    ensures labels { IfOk result (AnswersFor labels.now) }
{
    let mut table = DominanceTable::new(alloc, nodes)?;
    for label in labels {
        table = table.with(*label)?;
    }
    Ok(table)
}
