//! A draft that is judged while it grows.

ghost use Rattle.std.specs.Prelude.{◌≡◌, ◌&&◌, nat_lt};
ghost use Rattle.npp_cover.specs.Fault.{is_no_label};

use crate::closed::judge_closure;
use crate::commodity::commodity_at;
use crate::cover::Cover;
use crate::fault::CoverFault;
use crate::free::is_free_walk;
use crate::label::{Label, StepDraft};
use crate::steps::{judge_start, judge_step};
use npp_net::{Instance, Span, Walk};
use npp_short::Potentials;
use std::alloc::Global;
use std::marker::Model;

/// The most labels of a cover, the start included.
pub(crate) const MAX_LABELS: usize = 65_536;

/// A cover draft for one commodity, told label by label. Each call answers its fault at once, and after a fault or want
/// of memory the draft is as it was before.
///
/// Each call takes the instance, and the potentials to the destination of the commodity, with tolls.
#[derive(Drop)]
pub struct GrowingDraft {
    k: u32,
    span: Span,
    labels: Vec<Label>,
}

impl Model for GrowingDraft {
    ghost use Rattle.npp_cover.specs.Growing.{Growing};

    ghost Value = { Growing };

    ghost view = { λ d. record { commodity = d.k; span = d.span; labels = d.labels.items } };
}

impl GrowingDraft {
    ghost use Rattle.std.specs.Prelude.{◌≡◌, ◌<◌, [], ◌∷◌, ◌++◌, length, true, is_ok, if◌then◌else◌, IfOk};
    ghost use Rattle.npp_net.specs.Network.{Network};
    ghost use Rattle.npp_net.specs.Distance.{IsSpan};
    ghost use Rattle.npp_short.specs.Reach.{cost_at};
    ghost use Rattle.npp_short.specs.Potentials.{AreDistances};
    ghost use Rattle.npp_cover.specs.Useful.{commodity_at};
    ghost use Rattle.npp_cover.specs.Labels.{start_label, step_label};
    ghost use Rattle.npp_cover.specs.Fault.{start_fault, next_fault, closing_fault, Answers};
    ghost use Rattle.npp_cover.specs.Paths.{ArePathsOf};
    ghost use Rattle.npp_cover.specs.Replaces.{IsCoverOf};
    ghost use Rattle.npp_cover.specs.Growing.{IsGrowing};

    /// A draft with no label, for commodity `k` with its span.
    pub fn new(alloc: Global, k: u32, span: Span) -> GrowingDraft
        ensures new { result ≡ record { commodity = k; span = span; labels = [] } }
        ensures draft { (net : Network) → k < length net.commodities → IsSpan net.arcs (commodity_at net k) span → IsGrowing net result }
    {
        GrowingDraft {
            k,
            span,
            labels: Vec::new(alloc),
        }
    }

    /// Puts the start as the first label: the origin, with no toll and no cost.
    pub fn start(&mut self, instance: &Instance, potentials: &Potentials) -> Result<(), CoverFault>
        requires draft { IsGrowing instance.now self.old }
        requires first { self.old.labels ≡ [] }
        requires potentials { AreDistances instance.now.arcs true instance.now.nodes (commodity_at instance.now self.old.commodity).destination.0 potentials.now }
        ensures fault { Answers result (start_fault (cost_at potentials.now) self.old.span.free (commodity_at instance.now self.old.commodity).origin) }
        ensures labels { self.new ≡ record self.old {
          labels =
              (if is_ok result then start_label (commodity_at instance.now self.old.commodity).origin ∷ [] else self.old.labels);
        } }
        ensures draft { IsGrowing instance.now self.new }
    {
        let origin = commodity_at(instance, self.k).origin;
        let label = judge_start(potentials, self.span.free, origin)?;
        self.labels.push(label)?;
        Ok(())
    }

    /// Puts one more label at the end, by an arc after a label of lower number. After 65,536 labels it is one too many.
    pub fn step(
        &mut self,
        instance: &Instance,
        potentials: &Potentials,
        step: StepDraft,
    ) -> Result<(), CoverFault>
        requires draft { IsGrowing instance.now self.old }
        requires potentials { AreDistances instance.now.arcs true instance.now.nodes (commodity_at instance.now self.old.commodity).destination.0 potentials.now }
        ensures fault { Answers result (next_fault instance.now.arcs (cost_at potentials.now) self.old.span.free self.old.labels step) }
        ensures labels { self.new ≡ record self.old {
          labels =
              (if is_ok result then self.old.labels ++ step_label instance.now.arcs self.old.labels step ∷ [] else self.old.labels);
        } }
        ensures draft { IsGrowing instance.now self.new }
    {
        if self.labels.len() >= MAX_LABELS {
            return Err(CoverFault::TooManyLabels);
        }
        let label = judge_step(instance, potentials, self.span.free, &self.labels, step)?;
        self.labels.push(label)?;
        Ok(())
    }

    /// The cover of these labels with a toll-free walk, or what is wrong with the walk, the start or the closure, in this
    /// order.
    pub fn close(
        self,
        alloc: Global,
        instance: &Instance,
        potentials: &Potentials,
        free: Walk,
    ) -> Result<Cover, CoverFault>
        requires draft { IsGrowing instance.now self }
        requires potentials { AreDistances instance.now.arcs true instance.now.nodes (commodity_at instance.now self.commodity).destination.0 potentials.now }
        ensures fault { Answers result (closing_fault instance.now.arcs (cost_at potentials.now) (commodity_at instance.now self.commodity) self.span self.labels free.arcs.items) }
        ensures labels { IfOk result (λ c. c.labels ≡ self.labels) }
        ensures paths { IfOk result (λ c. ArePathsOf self.labels (commodity_at instance.now self.commodity).destination.0 self.span.free free.arcs.items c.paths) }
        ensures cover { IfOk result (IsCoverOf instance.now.arcs (commodity_at instance.now self.commodity) self.span) }
    {
        let GrowingDraft { k, span, labels } = self;
        let commodity = commodity_at(instance, k);
        if !is_free_walk(
            instance,
            commodity.origin,
            commodity.destination,
            span.free,
            &free.arcs,
        ) {
            return Err(CoverFault::BadFree);
        }
        if lacks_start(span, &labels) {
            return Err(CoverFault::MissingOrigin);
        }
        judge_closure(alloc, instance, potentials, span.free, &labels)?;
        Ok(Cover::of_labels(alloc, instance, k, span, labels, free)?)
    }
}

/// Whether there is no start although some walk costs less than the toll-free walk.
fn lacks_start(span: Span, labels: &[Label]) -> bool
    ensures { result ≡ (is_no_label labels.now && nat_lt span.zero span.free) }
{
    labels.is_empty() && span.zero < span.free
}
