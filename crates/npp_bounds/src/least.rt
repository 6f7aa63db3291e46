//! The least costs of each commodity, with walks that have them.

ghost use Rattle.std.specs.Prelude.{◌<◌, IfOk, IfErr, MatchOption, pos};
ghost use Rattle.npp_net.specs.Distance.{HasNoFreePath, IsSpan};
ghost use Rattle.npp_net.specs.Outcome.{IsEarned};
ghost use Rattle.npp_bounds.specs.Spans.{AreSpans, IsBoundsRefusal};
ghost use Rattle.npp_bounds.specs.LeastWalks.{AreLeastWalks, IsLeastWalk, arc_lists};
ghost use Rattle.npp_bounds.specs.ZeroTolls.{zero_tolls};

use crate::refusal::BoundsRefusal;
use npp_net::{Commodity, Instance, Memory, Span, Walk};
use npp_short::{distances_to, walk_from};
use std::alloc::Global;

/// The least costs of the commodities, in their order.
#[derive(Debug, PartialEq, Eq, Drop)]
pub struct LeastCosts {
    /// Of each commodity the least cost of a toll-free walk, and of any walk where all tolls are zero.
    pub spans: Vec<Span>,
    /// For each commodity a walk of the least cost where all tolls are zero.
    pub walks: Vec<Walk>,
}

/// The least costs of each commodity, with a walk that is cheapest where all tolls are zero and comes to no node twice.
///
/// So zero tolls with these walks are an outcome that earns nothing.
pub fn least_costs(alloc: Global, instance: &Instance) -> Result<LeastCosts, BoundsRefusal>
    ensures spans { IfOk result (λ c. AreSpans instance.now.arcs instance.now.commodities c.spans.items) }
    ensures walks { IfOk result (λ c. AreLeastWalks instance.now.arcs instance.now.commodities c.spans.items (arc_lists c.walks.items)) }
    ensures earned { IfOk result (λ c. IsEarned instance.now (zero_tolls instance.now.arcs) (arc_lists c.walks.items) (pos 0) 1) }
    ensures refused { IfErr result (IsBoundsRefusal instance.now.arcs instance.now.commodities) }
{
    let mut spans = Vec::new(alloc);
    let mut walks = Vec::new(alloc);
    for (i, k) in instance.commodities().iter().enumerate() {
        match least_of(alloc, instance, *k)? {
            None => return Err(BoundsRefusal::NoFreePath(i as u32)),
            Some((span, walk)) => {
                spans.push(span)?;
                walks.push(walk)?;
            }
        }
    }
    Ok(LeastCosts { spans, walks })
}

/// The span of each commodity, or the first commodity that has no toll-free walk.
pub fn free_and_zero(alloc: Global, instance: &Instance) -> Result<Vec<Span>, BoundsRefusal>
    ensures spans { IfOk result (λ v. AreSpans instance.now.arcs instance.now.commodities v.items) }
    ensures refused { IfErr result (IsBoundsRefusal instance.now.arcs instance.now.commodities) }
{
    Ok(least_costs(alloc, instance)?.spans)
}

/// The span of one commodity with a walk of its cost `zero`, or None where it has no toll-free walk.
fn least_of(
    alloc: Global,
    instance: &Instance,
    k: Commodity,
) -> Result<Option<(Span, Walk)>, Memory>
    requires origin { k.origin.0 < instance.now.nodes }
    requires destination { k.destination.0 < instance.now.nodes }
    ensures { IfOk result (λ o. MatchOption o
        (HasNoFreePath instance.now.arcs k)
        (λ p. IsSpan instance.now.arcs k p.0 × IsLeastWalk instance.now.arcs k p.0 p.1.arcs.items)) }
{
    let free = distances_to(alloc, instance, k.destination, false)?;
    let zero = distances_to(alloc, instance, k.destination, true)?;
    let walk = walk_from(alloc, instance, &zero, k.origin, k.destination, true)?;
    match free.at(k.origin) {
        None => Ok(None),
        Some(free) => match zero.at(k.origin) {
            None => Ok(None),
            Some(zero) => Ok(walk.map(|walk| (Span { free, zero }, walk))),
        },
    }
}
