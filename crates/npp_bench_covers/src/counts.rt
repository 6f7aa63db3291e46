//! How much the useful covers of an instance have, found and checked again and again.

ghost use Rattle.std.specs.Prelude.{◌<◌, length, true};
ghost use Rattle.npp_net.specs.Distance.{IsSpan};
ghost use Rattle.npp_short.specs.Potentials.{AreDistances};
ghost use Rattle.npp_bounds.specs.Spans.{AreSpans};
ghost use Rattle.npp_cover.specs.Useful.{commodity_at};

use npp_cover::{Cover, CoverDraft, StepDraft, check_cover};
use npp_labels::{LabelRefusal, useful};
use npp_net::{Instance, Span, Walk};
use npp_short::{Potentials, distances_to};
use std::alloc::{AllocError, Global};

/// Sums over covers. They stop at the greatest number.
#[derive(Clone, Copy)]
pub struct Counts {
    /// How many labels they have.
    pub labels: usize,
    /// How many paths they have.
    pub paths: usize,
    /// How many checks gave the labels again.
    pub checked: u32,
}

impl Counts {
    /// Of no cover.
    fn none() -> Counts {
        Counts {
            labels: 0,
            paths: 0,
            checked: 0,
        }
    }

    /// Of these covers and of others.
    fn and(self, other: Counts) -> Counts {
        Counts {
            labels: self.labels.saturating_add(other.labels),
            paths: self.paths.saturating_add(other.paths),
            checked: self.checked.saturating_add(other.checked),
        }
    }
}

/// The counts of the covers of all commodities, each found so often and then checked so often.
pub fn count_all(
    alloc: Global,
    instance: &Instance,
    spans: &[Span],
    searches: u32,
    checks: u32,
) -> Result<Counts, LabelRefusal>
    requires { AreSpans instance.now.arcs instance.now.commodities spans.now }
{
    let mut counts = Counts::none();
    for k in 0..instance.commodities().len() as u32 {
        let of_one = count_one(alloc, instance, k, spans[k as usize], searches, checks)?;
        counts = counts.and(of_one);
    }
    Ok(counts)
}

/// The counts of the cover of commodity `k`, found so often.
fn count_one(
    alloc: Global,
    instance: &Instance,
    k: u32,
    span: Span,
    searches: u32,
    checks: u32,
) -> Result<Counts, LabelRefusal>
    requires k { k < length instance.now.commodities }
    requires span { IsSpan instance.now.arcs (commodity_at instance.now k) span }
{
    let destination = instance.commodities()[k as usize].destination;
    let potentials = distances_to(alloc, instance, destination, true)?;
    let mut counts = Counts::none();
    for _ in 0..searches {
        let cover = useful(alloc, instance, k, span, &potentials)?;
        counts.labels = cover.labels().len();
        counts.paths = cover.paths().len();
        let checked = check_often(alloc, instance, k, span, &potentials, &cover, checks)?;
        counts.checked = counts.checked.saturating_add(checked);
    }
    Ok(counts)
}

/// How many of so many checks of its draft give the labels of the cover again.
fn check_often(
    alloc: Global,
    instance: &Instance,
    k: u32,
    span: Span,
    potentials: &Potentials,
    cover: &Cover,
    checks: u32,
) -> Result<u32, LabelRefusal>
    requires k { k < length instance.now.commodities }
    requires span { IsSpan instance.now.arcs (commodity_at instance.now k) span }
    requires potentials { AreDistances instance.now.arcs true instance.now.nodes (commodity_at instance.now k).destination.0 potentials.now }
{
    let mut checked = 0u32;
    for _ in 0..checks {
        let draft = draft_of(alloc, cover)?;
        if let Ok(again) = check_cover(alloc, instance, k, span, potentials, draft) {
            if again.labels() == cover.labels() {
                checked = checked.saturating_add(1);
            }
        }
    }
    Ok(checked)
}

/// The draft of a cover.
fn draft_of(alloc: Global, cover: &Cover) -> Result<CoverDraft, AllocError> {
    let labels = cover.labels();
    let mut steps = Vec::new(alloc);
    for label in labels {
        if let Some(arc) = label.last {
            steps.push(StepDraft {
                parent: label.parent,
                arc,
            })?;
        }
    }
    let mut arcs = Vec::new(alloc);
    if let Some(last) = cover.paths().last() {
        arcs.extend_from_slice(&last.walk.arcs)?;
    }
    Ok(CoverDraft {
        started: !labels.is_empty(),
        steps,
        free: Walk { arcs },
    })
}
