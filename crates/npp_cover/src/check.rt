//! The check of a cover draft.

ghost use Rattle.std.specs.Prelude.{◌≡◌, ◌<◌, length, IfOk, true, ◌+◌, if◌then◌else◌};
ghost use Rattle.npp_net.specs.Distance.{IsSpan};
ghost use Rattle.npp_short.specs.Reach.{cost_at};
ghost use Rattle.npp_short.specs.Potentials.{AreDistances};
ghost use Rattle.npp_cover.specs.Useful.{commodity_at};
ghost use Rattle.npp_cover.specs.Labels.{labels_of};
ghost use Rattle.npp_cover.specs.Fault.{cover_fault, Answers};
ghost use Rattle.npp_cover.specs.Paths.{ArePathsOf};
ghost use Rattle.npp_cover.specs.Replaces.{IsCoverOf};

use crate::cover::Cover;
use crate::fault::CoverFault;
use crate::growing::{GrowingDraft, MAX_LABELS};
use crate::label::{CoverDraft, StepDraft};
use npp_net::{Instance, Span};
use npp_short::Potentials;
use std::alloc::Global;

/// The cover of a draft for commodity `k`, or its first fault.
///
/// The span is that of the commodity, and the potentials are those to its destination with tolls. The rules are judged
/// in the order of the variants of `CoverFault`: first the number of labels, then the labels in order, each by the three
/// rules of labels in turn, then the free walk, the start, and that each extension is dominated. The start is judged by
/// `Useless` alone, and a draft with steps and no start has `NotAStep(0)`.
pub fn check_cover(
    alloc: Global,
    instance: &Instance,
    k: u32,
    span: Span,
    potentials: &Potentials,
    draft: CoverDraft,
) -> Result<Cover, CoverFault>
    requires k { k < length instance.now.commodities }
    requires span { IsSpan instance.now.arcs (commodity_at instance.now k) span }
    requires potentials { AreDistances instance.now.arcs true instance.now.nodes (commodity_at instance.now k).destination.0 potentials.now }
    ensures fault { Answers result (cover_fault instance.now.arcs (cost_at potentials.now) (commodity_at instance.now k) span draft) }
    ensures labels { IfOk result (λ c. c.labels ≡ labels_of instance.now.arcs (commodity_at instance.now k).origin draft.started draft.steps.items) }
    ensures paths { IfOk result (λ c. ArePathsOf c.labels (commodity_at instance.now k).destination.0 span.free draft.free.arcs.items c.paths) }
    ensures cover { IfOk result (IsCoverOf instance.now.arcs (commodity_at instance.now k) span) }
{
    let CoverDraft {
        started,
        steps,
        free,
    } = draft;
    if count_labels(started, &steps) > MAX_LABELS {
        return Err(CoverFault::TooManyLabels);
    }
    let mut growing = GrowingDraft::new(alloc, k, span);
    if started {
        growing.start(instance, potentials)?;
    }
    for step in &steps {
        growing.step(instance, potentials, *step)?;
    }
    growing.close(alloc, instance, potentials, free)
}

/// How many labels there are, the start included.
fn count_labels(started: bool, steps: &[StepDraft]) -> usize
    ensures { result ≡ (if started then 1 else 0) + length steps.now }
{
    if started {
        steps.len() + 1
    } else {
        steps.len()
    }
}
