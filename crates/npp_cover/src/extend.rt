//! One arc further from a label.

ghost use Rattle.std.specs.Prelude.{◌≡◌, ◌<◌, length};
ghost use Rattle.npp_net.specs.Network.{IsNetwork};
ghost use Rattle.npp_short.specs.Reach.{cost_at};
ghost use Rattle.npp_cover.specs.Labels.{with_arc, label_after, IsCapped};
ghost use Rattle.npp_cover.specs.Fault.{can_win, has_arc};

use crate::label::{Label, StepDraft};
use npp_net::{ArcId, Instance, NodeId, TollSet};
use npp_short::Potentials;

/// Whether a walk to the node of this cost can be continued to one that costs less than the toll-free walk, whose cost is
/// `free`.
pub fn can_win(potentials: &Potentials, free: u64, node: NodeId, cost: u64) -> bool
    requires { node.0 < length potentials.now }
    ensures { result ≡ can_win (cost_at potentials.now) free node.0 cost }
{
    match potentials.at(node) {
        Some(onward) => cost < free && onward < free - cost,
        None => false,
    }
}

/// The set, and the toll of this arc where it is a toll arc.
fn with_arc(instance: &Instance, tolls: TollSet, arc: ArcId) -> TollSet
    requires network { IsNetwork instance.now }
    requires in_range { arc.0 < length instance.now.arcs }
    ensures { result ≡ with_arc instance.now.arcs tolls arc }
{
    match instance.toll_of(arc) {
        Some(toll) => tolls.with(toll),
        None => tolls,
    }
}

/// Whether the arc is a toll arc that the set has.
pub fn has_arc(instance: &Instance, tolls: TollSet, arc: ArcId) -> bool
    requires network { IsNetwork instance.now }
    requires in_range { arc.0 < length instance.now.arcs }
    ensures { result ≡ has_arc instance.now.arcs tolls arc }
{
    match instance.toll_of(arc) {
        Some(toll) => tolls.has(toll),
        None => false,
    }
}

/// The label that a step gives after the label of its parent. A cost that does not fit 64 bits becomes the greatest
/// number: with it no walk can win.
pub fn label_after(instance: &Instance, from: Label, step: StepDraft) -> Label
    requires { step.arc.0 < length instance.now.arcs }
    ensures { IsCapped (label_after instance.now.arcs from step) result }
{
    let x = instance.arcs()[step.arc.0 as usize];
    Label {
        node: x.head,
        tolls: with_arc(instance, from.tolls, step.arc),
        cost: from.cost.saturating_add(u64::from(x.cost)),
        last: Some(step.arc),
        parent: step.parent,
    }
}
