//! Evaluating tolls.

ghost use Rattle.std.specs.Prelude.{◌≡◌, ◌≤◌, IfErr, IfOk, map};
ghost use Rattle.npp_frac.specs.Fits.{limit_of};
ghost use Rattle.npp_frac.specs.Wide.{value_of_wide};
ghost use Rattle.npp_bounds.specs.Spans.{AllHaveFreePaths, AreSpans};
ghost use Rattle.npp_labels.specs.Covers.{AreUsefulCovers, PassesNoLimit, path_total};
ghost use Rattle.npp_start.specs.Allowed.{AreAllowed};
ghost use Rattle.npp_eval.specs.Evaluated.{IsEvaluated, IsTextEvaluated, evaluation_value};
ghost use Rattle.npp_eval.specs.Refused.{IsRefusalOfText, IsRefusalOfTolls, over_limit};

use crate::evaluation::Evaluation;
use crate::refusal::EvalRefusal;
use npp_bounds::{BoundsRefusal, free_and_zero};
use npp_cover::Cover;
use npp_frac::{Exact, Frac128};
use npp_inverse::{RespondRefusal, respond};
use npp_labels::{CoversRefusal, useful_all};
use npp_net::{Instance, Listed, Span, Tolls};
use npp_start::walks_of_reply;
use npp_toll_text::{TollsRefusal, read_tolls};
use std::alloc::Global;

/// What the tolls of a tolls text earn, with numbers of 128 bits: see [`evaluate`] and [`read_tolls`].
///
/// A refusal is the first cause in the order of [`EvalRefusal`].
pub fn evaluate_text(
    alloc: Global,
    instance: &Instance,
    bytes: &[u8],
) -> Result<Evaluation<Frac128>, EvalRefusal>
    ensures evaluated { IfOk result (λ e. IsTextEvaluated instance.now bytes.now (evaluation_value value_of_wide e)) }
    ensures refused { IfErr result (IsRefusalOfText instance.now bytes.now) }
{
    match read_tolls(alloc, instance, bytes) {
        Ok(tolls) => evaluate(alloc, instance, &tolls),
        Err(TollsRefusal::Line(line)) => Err(EvalRefusal::Line(line)),
        Err(TollsRefusal::Memory) => Err(EvalRefusal::Memory),
    }
}

/// What tolls earn, one for each toll arc: the travellers' reply to them, of which each walk is cheapest over all walks, and
/// whose revenue is the most that cheapest walks earn (the optimistic reply of Labbé, Marcotte and Savard). No walk comes to a
/// node twice.
///
/// The tolls are not negative and keep the ceilings of the instance. A refusal is the first cause in the order of
/// [`EvalRefusal`]; none is about a line.
pub fn evaluate<N: Exact>(
    alloc: Global,
    instance: &Instance,
    tolls: &Tolls<N>,
) -> Result<Evaluation<N>, EvalRefusal>
    requires { AreAllowed instance.now (map N.rational tolls.now) }
    ensures evaluated { IfOk result (λ e. IsEvaluated (limit_of N.WIDTH) instance.now (map N.rational tolls.now) (evaluation_value N.rational e)) }
    ensures refused { IfErr result (IsRefusalOfTolls (limit_of N.WIDTH) instance.now (map N.rational tolls.now)) }
{
    match free_and_zero(alloc, instance) {
        Ok(spans) => evaluate_with_spans(alloc, instance, &spans, tolls),
        Err(BoundsRefusal::NoFreePath(k)) => Err(EvalRefusal::NoFreePath(k)),
        Err(BoundsRefusal::Memory) => Err(EvalRefusal::Memory),
    }
}

/// The same where each commodity has a toll-free walk. The spans are those of the instance.
fn evaluate_with_spans<N: Exact>(
    alloc: Global,
    instance: &Instance,
    spans: &[Span],
    tolls: &Tolls<N>,
) -> Result<Evaluation<N>, EvalRefusal>
    requires spans { AreSpans instance.now.arcs instance.now.commodities spans.now }
    requires tolls { AreAllowed instance.now (map N.rational tolls.now) }
    ensures evaluated { IfOk result (λ e. IsEvaluated (limit_of N.WIDTH) instance.now (map N.rational tolls.now) (evaluation_value N.rational e)) }
    ensures refused { IfErr result (IsRefusalOfTolls (limit_of N.WIDTH) instance.now (map N.rational tolls.now)) }
{
    match useful_all(alloc, instance, spans) {
        Ok(covers) => evaluate_over(alloc, instance, &covers, tolls),
        Err(refusal) => Err(over_limit(refusal)),
    }
}

/// The same over useful covers of the instance, one for each commodity in order.
fn evaluate_over<N: Exact>(
    alloc: Global,
    instance: &Instance,
    covers: &[Cover],
    tolls: &Tolls<N>,
) -> Result<Evaluation<N>, EvalRefusal>
    requires connected { AllHaveFreePaths instance.now.arcs instance.now.commodities }
    requires covers { AreUsefulCovers instance.now.arcs instance.now.commodities covers.now }
    requires few { path_total covers.now ≤ 2000 }
    requires kept { PassesNoLimit instance.now.arcs instance.now.commodities }
    requires tolls { AreAllowed instance.now (map N.rational tolls.now) }
    ensures evaluated { IfOk result (λ e. IsEvaluated (limit_of N.WIDTH) instance.now (map N.rational tolls.now) (evaluation_value N.rational e)) }
    ensures refused { IfErr result (IsRefusalOfTolls (limit_of N.WIDTH) instance.now (map N.rational tolls.now)) }
{
    match respond(alloc, instance, covers, tolls) {
        Ok(response) => {
            let paths = walks_of_reply(alloc, instance, covers, &response)?;
            Ok(Evaluation {
                revenue: response.revenue,
                paths: Listed::of(paths),
            })
        }
        Err(RespondRefusal::Overflow { commodity }) => Err(EvalRefusal::Overflow(commodity)),
        Err(RespondRefusal::Memory) => Err(EvalRefusal::Memory),
    }
}

/// The limit that is passed.
fn over_limit(refusal: CoversRefusal) -> EvalRefusal
    ensures { result ≡ over_limit refusal }
{
    match refusal {
        CoversRefusal::TooManyLabels(k) => EvalRefusal::TooManyLabels(k),
        CoversRefusal::TooManyPaths(k) => EvalRefusal::TooManyPaths(k),
        CoversRefusal::Memory => EvalRefusal::Memory,
    }
}
