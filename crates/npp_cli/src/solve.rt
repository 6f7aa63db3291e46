//! The job `solve`: the best tolls that a search finds with the travellers' reply to them, and the bound that it proves.
ghost use Rattle.std.specs.Prelude.{◌≡◌, ◌⊎◌, ◌≤◌, IfOk};
ghost use Rattle.npp_bounds.specs.Spans.{AreSpans};
ghost use Rattle.npp_labels.specs.Covers.{AreUsefulCovers, PassesNoLimit, path_total};
ghost use Rattle.npp_cli.specs.Answer.{answer_text};
ghost use Rattle.npp_cli.specs.Answers.{IsSolved, exit_status};
ghost use Rattle.npp_cli.specs.Listed.{IsOverLimit};

use crate::answers::{Answer, Output, Solution, over_limit};
use npp_accept::{outcomes_are_accepted, outcomes_have_numbers};
use npp_cover::Cover;
use npp_frac::Frac64;
use npp_labels::useful_all;
use npp_net::{Instance, Memory, Span};
use npp_search::{BestBound, search};
use npp_tree::Status;
use std::alloc::Global;

/// How many rounds of cuts a node may have.
const CUT_ROUNDS: u32 = 0;

/// What a search of so many nodes finds of an instance, or the first limit that is passed.
///
/// The spans are those of the instance, one for each commodity in order. Where `brief` is true the report alone is
/// answered, and else the whole certificate.
pub fn solve(
    alloc: Global,
    instance: Instance,
    spans: &[Span],
    budget: u32,
    brief: bool,
) -> Result<Answer, Memory>
    requires { AreSpans instance.arcs instance.commodities spans.now }
    ensures { IfOk result (λ answer. IsSolved budget brief instance answer.status (answer_text answer)
        ⊎ IsOverLimit instance answer.status (answer_text answer)) }
{
    match useful_all(alloc, &instance, spans) {
        Ok(covers) => solved(alloc, instance, covers, budget, brief),
        Err(refusal) => over_limit(alloc, refusal),
    }
}

// What a search over the useful covers finds, with its status.
fn solved(
    alloc: Global,
    instance: Instance,
    covers: Vec<Cover>,
    budget: u32,
    brief: bool,
) -> Result<Answer, Memory>
    requires covers { AreUsefulCovers instance.arcs instance.commodities covers.items }
    requires few { path_total covers.items ≤ 2000 }
    requires kept { PassesNoLimit instance.arcs instance.commodities }
    ensures { IfOk result (λ answer. IsSolved budget brief instance answer.status (answer_text answer)) }
{
    let mut picker = BestBound;
    let outcome = search::<Frac64, BestBound>(
        alloc,
        &instance,
        &covers,
        budget,
        CUT_ROUNDS,
        &mut picker,
    )?;
    // That its certificate is accepted follows from these laws, and from the limits that each instance keeps.
    outcomes_are_accepted();
    outcomes_have_numbers::<Frac64>();
    let _nodes = instance.nodes();
    let status = exit_status(outcome.status);
    let solution = Solution {
        instance,
        covers,
        outcome,
        brief,
    };
    Ok(Answer {
        status,
        output: Output::Solved(solution),
    })
}

// The status of the program for that of a search.
fn exit_status(status: Status) -> u8
    ensures { result ≡ exit_status status }
{
    match status {
        Status::Optimal => 0,
        Status::Budget => 1,
        Status::Overflow => 8,
    }
}
