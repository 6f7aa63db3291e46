//! The labels of a draft, each judged in turn.

ghost use Rattle.std.specs.Prelude.{◌≡◌, ◌≤◌, ◌<◌, length, IfOk};
ghost use Rattle.npp_net.specs.Network.{IsNetwork};
ghost use Rattle.npp_short.specs.Reach.{cost_at};
ghost use Rattle.npp_cover.specs.Labels.{start_label, step_label};
ghost use Rattle.npp_cover.specs.Fault.{is_step, start_fault, step_fault, Answers};

use crate::extend::{can_win, has_arc, label_after};
use crate::fault::CoverFault;
use crate::label::{Label, StepDraft, label_at};
use npp_net::{Instance, NodeId, TollSet};
use npp_short::Potentials;

/// The origin, with no toll and no cost, or what is wrong with it.
pub(crate) fn judge_start(
    potentials: &Potentials,
    free: u64,
    origin: NodeId,
) -> Result<Label, CoverFault>
    requires { origin.0 < length potentials.now }
    ensures fault { Answers result (start_fault (cost_at potentials.now) free origin) }
    ensures label { IfOk result (λ l. l ≡ start_label origin) }
{
    if !can_win(potentials, free, origin, 0) {
        return Err(CoverFault::Useless(0));
    }
    Ok(Label {
        node: origin,
        tolls: TollSet::empty(),
        cost: 0,
        last: None,
        parent: 0,
    })
}

/// Whether the parent is one of these labels, and the arc begins at its node.
fn is_step(instance: &Instance, labels: &[Label], step: StepDraft) -> bool
    ensures same { result ≡ is_step instance.now.arcs labels.now step }
    ensures network { IsNetwork instance.now }
{
    let arcs = instance.arcs();
    let parent = step.parent as usize;
    let arc = step.arc.0 as usize;
    parent < labels.len() && arc < arcs.len() && arcs[arc].tail.0 == labels[parent].node.0
}

/// The label that a step gives after these, or what is wrong with it.
pub(crate) fn judge_step(
    instance: &Instance,
    potentials: &Potentials,
    free: u64,
    labels: &[Label],
    step: StepDraft,
) -> Result<Label, CoverFault>
    requires potentials { length potentials.now ≡ instance.now.nodes }
    requires few { length labels.now ≤ 65536 }
    ensures fault { Answers result (step_fault instance.now.arcs (cost_at potentials.now) free labels.now step) }
    ensures label { IfOk result (λ l. l ≡ step_label instance.now.arcs labels.now step) }
    ensures network { IsNetwork instance.now }
{
    let number = labels.len() as u32;
    if !is_step(instance, labels, step) {
        return Err(CoverFault::NotAStep(number));
    }
    let from = label_at(labels, step.parent);
    if has_arc(instance, from.tolls, step.arc) {
        return Err(CoverFault::RepeatedToll(number));
    }
    let label = label_after(instance, from, step);
    if !can_win(potentials, free, label.node, label.cost) {
        return Err(CoverFault::Useless(number));
    }
    Ok(label)
}
