//! What a search finds, as text.

ghost use Rattle.std.specs.Prelude.{◌≤◌};
ghost use Rattle.npp_labels.specs.Covers.{AreUsefulCovers, path_total};

use npp_cover::Cover;
use npp_frac::{Exact, print_fraction};
use npp_net::{Instance, Memory};
use npp_search::{BestBound, Depth, search};
use npp_tree::{Outcome, Status};
use std::alloc::Global;

/// The order in which nodes are opened.
#[derive(Clone, Copy)]
pub enum Order {
    /// The greatest bound first.
    BestBound,
    /// The greatest depth first.
    Depth,
}

/// How a search ends, both values, and how many of the nodes are opened.
pub fn told<N: Exact>(
    alloc: Global,
    instance: &Instance,
    covers: &[Cover],
    budget: u32,
    order: Order,
) -> Result<String, Memory>
    requires covers { AreUsefulCovers instance.now.arcs instance.now.commodities covers.now }
    requires few { path_total covers.now ≤ 2000 }
{
    let outcome = found::<N>(alloc, instance, covers, budget, order)?;
    text_of(alloc, &outcome)
}

/// What a search finds.
fn found<N: Exact>(
    alloc: Global,
    instance: &Instance,
    covers: &[Cover],
    budget: u32,
    order: Order,
) -> Result<Outcome<N>, Memory>
    requires covers { AreUsefulCovers instance.now.arcs instance.now.commodities covers.now }
    requires few { path_total covers.now ≤ 2000 }
{
    match order {
        Order::BestBound => search(alloc, instance, covers, budget, 0, &mut BestBound),
        Order::Depth => search(alloc, instance, covers, budget, 0, &mut Depth),
    }
}

/// The text of what is found.
fn text_of<N: Exact>(alloc: Global, outcome: &Outcome<N>) -> Result<String, Memory> {
    let (Ok(lower), Ok(upper)) = (
        print_fraction(alloc, outcome.lower),
        print_fraction(alloc, outcome.upper),
    ) else {
        return Err(Memory);
    };
    let end = match outcome.status {
        Status::Optimal => "optimal",
        Status::Budget => "budget",
        Status::Overflow => "overflow",
    };
    let nodes = outcome.tree.nodes.len();
    let text = format!(in alloc;
        "{end} {lower} {upper}, {} of {nodes} nodes opened",
        outcome.opened
    )?;
    Ok(text)
}
