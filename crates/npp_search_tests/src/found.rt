//! What a search of the instance of a text finds, as text.

ghost use Rattle.std.specs.Prelude.{◌≤◌};
ghost use Rattle.npp_labels.specs.Covers.{AreUsefulCovers, path_total};

use crate::certificate::accept;
use crate::items::items_of;
use crate::tree::write_tree;
use npp_bounds::free_and_zero;
use npp_cover::Cover;
use npp_fixtures::{instance_of, write_numbers};
use npp_frac::{Exact, print_fraction};
use npp_labels::useful_all;
use npp_net::Instance;
use npp_report::{Report, report_text};
use npp_search::{Picker, search};
use npp_tree::{Outcome, Status};
use std::alloc::Global;
use std::fmt::Write;
use std::test::Fail;

/// The outcome of a search over all useful paths of an instance.
fn outcome_of<N: Exact, P: Picker>(
    alloc: Global,
    instance: &Instance,
    budget: u32,
    picker: &mut P,
) -> Result<Outcome<N>, Fail> {
    let spans = free_and_zero(alloc, instance)?;
    let covers = useful_all(alloc, instance, &spans)?;
    accepted_outcome(alloc, instance, &covers, budget, picker)
}

/// The outcome of a search. The checker accepts its certificate with both of its values.
fn accepted_outcome<N: Exact, P: Picker>(
    alloc: Global,
    instance: &Instance,
    covers: &[Cover],
    budget: u32,
    picker: &mut P,
) -> Result<Outcome<N>, Fail>
    requires covers { AreUsefulCovers instance.now.arcs instance.now.commodities covers.now }
    requires few { path_total covers.now ≤ 2000 }
{
    let outcome = search::<N, P>(alloc, instance, covers, budget, 0, picker)?;
    let items = items_of(alloc, instance, covers, &outcome)?;
    accept(alloc, instance, items, &outcome)?;
    Ok(outcome)
}

/// The report of a search.
pub(crate) fn report<N: Exact, P: Picker>(
    alloc: Global,
    text: &str,
    budget: u32,
    picker: &mut P,
) -> Result<String, Fail> {
    let instance = instance_of(alloc, text)?;
    let Outcome::<N> {
        status,
        lower,
        upper,
        opened,
        tolls,
        paths,
        ..
    } = outcome_of(alloc, &instance, budget, picker)?;
    let report = Report {
        status,
        lower,
        upper,
        opened,
        tolls,
        paths,
    };
    let text = report_text(alloc, &instance, &report)?;
    Ok(text)
}

/// The word of a status.
fn word(status: Status) -> &'static str {
    match status {
        Status::Optimal => "optimal",
        Status::Budget => "budget",
        Status::Overflow => "overflow",
    }
}

/// How a search ended, and both values.
fn values_of<N: Exact>(alloc: Global, outcome: &Outcome<N>) -> Result<String, Fail> {
    let lower = print_fraction(alloc, outcome.lower)?;
    let upper = print_fraction(alloc, outcome.upper)?;
    let text = format!(in alloc; "{} {lower} {upper}", word(outcome.status))?;
    Ok(text)
}

/// How a search ends, and both values.
pub(crate) fn values<N: Exact, P: Picker>(
    alloc: Global,
    text: &str,
    budget: u32,
    picker: &mut P,
) -> Result<String, Fail> {
    let instance = instance_of(alloc, text)?;
    let outcome = outcome_of::<N, P>(alloc, &instance, budget, picker)?;
    values_of(alloc, &outcome)
}

/// The same with how many nodes are opened and the tolls, and then a line for each node of the tree.
pub(crate) fn tree<N: Exact, P: Picker>(
    alloc: Global,
    text: &str,
    budget: u32,
    picker: &mut P,
) -> Result<String, Fail> {
    let instance = instance_of(alloc, text)?;
    let outcome = outcome_of::<N, P>(alloc, &instance, budget, picker)?;
    let mut text = values_of(alloc, &outcome)?;
    write!(text, " {} at", outcome.opened)?;
    write_numbers(alloc, &mut text, outcome.tolls.values()).ok_or("no memory")?;
    text.push('\n')?;
    write_tree(alloc, &mut text, &outcome.tree)?;
    Ok(text)
}
