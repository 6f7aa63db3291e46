//! The limits of an instance, judged in order.

ghost use Rattle.std.specs.Prelude.{◌≡◌, ℕ, IfNone};
ghost use Rattle.npp_net.specs.Network.{Network, IsNetwork};
ghost use Rattle.npp_net.specs.Refusal.{refusal_of, refusal_of_counts, refusal_of_arc, refusal_of_commodity, first_of_list, is_ceiling_too_large};

use crate::refusal::NetRefusal;
use crate::types::{Commodity, NetArc};

/// The most nodes of an instance.
pub const MAX_NODES: u32 = 1000;

/// The most arcs of an instance, toll arcs and toll-free arcs together.
pub const MAX_ARCS: usize = 5000;

/// The most toll arcs of an instance.
pub const MAX_TOLLS: usize = 128;

/// The most commodities of an instance.
pub const MAX_COMMODITIES: usize = 100;

/// The greatest cost and the greatest demand.
pub const MAX_NUMBER: u32 = 1_000_000;

/// The greatest ceiling.
pub const MAX_CEILING: u32 = 1_000_000_000;

/// The first refusal of all, if there is one.
pub fn refused(nodes: u32, arcs: &[NetArc], commodities: &[Commodity]) -> Option<NetRefusal>
    ensures first { result ≡ refusal_of (record { nodes = nodes; arcs = arcs.now; commodities = commodities.now }) }
    ensures limits { IfNone result (IsNetwork (record { nodes = nodes; arcs = arcs.now; commodities = commodities.now })) }
{
    let counts = refused_counts(nodes, arcs, commodities);
    if counts.is_some() {
        return counts;
    }
    let arc = refused_arc(nodes, arcs);
    if arc.is_some() {
        return arc;
    }
    let commodity = refused_commodity(nodes, commodities);
    if commodity.is_some() {
        return commodity;
    }
    if commodities.is_empty() {
        return Some(NetRefusal::NoCommodity);
    }
    None
}

fn refused_counts(nodes: u32, arcs: &[NetArc], commodities: &[Commodity]) -> Option<NetRefusal>
    ensures { result ≡ refusal_of_counts (record { nodes = nodes; arcs = arcs.now; commodities = commodities.now }) }
{
    if nodes > MAX_NODES {
        return Some(NetRefusal::TooManyNodes);
    }
    if arcs.len() > MAX_ARCS {
        return Some(NetRefusal::TooManyArcs);
    }
    let tolls = arcs.iter().filter(|x| x.toll).count();
    if tolls > MAX_TOLLS {
        return Some(NetRefusal::TooManyTolls);
    }
    if commodities.len() > MAX_COMMODITIES {
        return Some(NetRefusal::TooManyCommodities);
    }
    None
}

fn refused_one_arc(nodes: u32, x: NetArc) -> Option<NetRefusal>
    ensures { result ≡ refusal_of_arc nodes x }
{
    if x.tail.0 >= nodes || x.head.0 >= nodes {
        return Some(NetRefusal::UnknownNode);
    }
    if x.cost > MAX_NUMBER || is_ceiling_too_large(x.ceiling) {
        return Some(NetRefusal::NumberTooLarge);
    }
    if !x.toll && x.ceiling.is_some() {
        return Some(NetRefusal::CeilingOnFree);
    }
    None
}

fn is_ceiling_too_large(ceiling: Option<u32>) -> bool
    ensures { result ≡ is_ceiling_too_large ceiling }
{
    match ceiling {
        None => false,
        Some(u) => u > MAX_CEILING,
    }
}

fn refused_one_commodity(nodes: u32, k: Commodity) -> Option<NetRefusal>
    ensures { result ≡ refusal_of_commodity nodes k }
{
    if k.origin.0 >= nodes || k.destination.0 >= nodes {
        return Some(NetRefusal::UnknownNode);
    }
    if k.demand > MAX_NUMBER {
        return Some(NetRefusal::NumberTooLarge);
    }
    if k.origin.0 == k.destination.0 {
        return Some(NetRefusal::SameEnds);
    }
    if k.demand == 0 {
        return Some(NetRefusal::ZeroDemand);
    }
    None
}

fn refused_arc(nodes: u32, arcs: &[NetArc]) -> Option<NetRefusal>
    ensures { result ≡ first_of_list (refusal_of_arc nodes) arcs.now }
{
    for x in arcs {
        if let Some(refusal) = refused_one_arc(nodes, *x) {
            return Some(refusal);
        }
    }
    None
}

fn refused_commodity(nodes: u32, commodities: &[Commodity]) -> Option<NetRefusal>
    ensures { result ≡ first_of_list (refusal_of_commodity nodes) commodities.now }
{
    for k in commodities {
        if let Some(refusal) = refused_one_commodity(nodes, *k) {
            return Some(refusal);
        }
    }
    None
}
