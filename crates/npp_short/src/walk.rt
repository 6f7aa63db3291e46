//! Shortest walks, followed arc by arc.

ghost use Rattle.std.specs.Prelude.{◌≡◌, ◌<◌, ◌+◌, length, IfOk, IfNone, IfSome, MatchOption, MatchBool, Some, None};
ghost use Rattle.npp_net.specs.Network.{IsNetwork, IsArc};
ghost use Rattle.npp_net.specs.Walk.{walk_cost};
ghost use Rattle.npp_short.specs.Reach.{cost_at, reach_at};
ghost use Rattle.npp_short.specs.Potentials.{ArePotentials};
ghost use Rattle.npp_short.specs.Shortest.{IsShortestWalk};
ghost use Rattle.npp_short.specs.Following.{IsFollowed, IsTight, IsTightFrom};
ghost use Rattle.npp_short.specs.declared.reach.Reach.{Reach};

use crate::distances::{arc_at, is_usable};
use crate::potentials::Potentials;
use crate::reach::Reach;
use npp_net::{ArcId, Instance, Memory, NetArc, NodeId, Walk};
use std::alloc::{AllocError, Global};

/// A walk of the least cost from a node to the destination that comes to no node twice, or None exactly where there is
/// no walk.
///
/// The potentials are those that `distances_to` gives for the same instance, destination and `with_tolls`. The walk uses
/// no toll arc where `with_tolls` is false.
pub fn walk_from(
    alloc: Global,
    instance: &Instance,
    potentials: &Potentials,
    from: NodeId,
    destination: NodeId,
    with_tolls: bool,
) -> Result<Option<Walk>, Memory>
    requires from { from.0 < instance.now.nodes }
    requires potentials { ArePotentials instance.now.arcs with_tolls instance.now.nodes destination.0 potentials.now }
    ensures none { IfOk result (λ o. IfNone o (cost_at potentials.now from.0 ≡ None)) }
    ensures cost { IfOk result (λ o. IfSome o (λ w. cost_at potentials.now from.0 ≡ Some (walk_cost instance.now.arcs w.arcs.items))) }
    ensures shortest { IfOk result (λ o. IfSome o (λ w. IsShortestWalk instance.now.arcs with_tolls from.0 destination.0 w.arcs.items)) }
{
    let table = potentials.table();
    match table[from.0 as usize] {
        None => Ok(None),
        Some(start) => {
            let arcs = follow(alloc, instance, with_tolls, table, from, destination, start)?;
            Ok(Some(Walk { arcs }))
        }
    }
}

/// The arcs from one reach to the next, to the destination.
fn follow(
    alloc: Global,
    instance: &Instance,
    with_tolls: bool,
    table: &[Option<Reach>],
    from: NodeId,
    destination: NodeId,
    start: Reach,
) -> Result<Vec<ArcId>, AllocError>
    requires potentials { ArePotentials instance.now.arcs with_tolls instance.now.nodes destination.0 table.now }
    requires within { from.0 < instance.now.nodes }
    requires start { reach_at table.now from.0 ≡ Some start }
    ensures { IfOk result (λ w. IsFollowed instance.now.arcs with_tolls from.0 destination.0 start w.items) }
{
    let arcs = instance.arcs();
    let mut walk = Vec::new(alloc);
    let mut node = from;
    let mut left = start;
    while left.arcs > 0 {
        let (arc, after) = next_arc(instance, with_tolls, table, destination, node, left);
        walk.push(arc)?;
        node = arcs[arc.0 as usize].head;
        left = after;
    }
    Ok(walk)
}

/// An arc by which the node has its reach, with the reach of its head.
fn next_arc(
    instance: &Instance,
    with_tolls: bool,
    table: &[Option<Reach>],
    destination: NodeId,
    node: NodeId,
    left: Reach,
) -> (ArcId, Reach)
    requires limits { IsNetwork instance.now }
    requires potentials { ArePotentials instance.now.arcs with_tolls instance.now.nodes destination.0 table.now }
    requires within { node.0 < instance.now.nodes }
    requires here { reach_at table.now node.0 ≡ Some left }
    requires more { 0 < left.arcs }
    ensures { IsTightFrom instance.now.arcs with_tolls table.now node.0 left result.0 result.1 }
{
    for arc in instance.leaving(node) {
        let x = arc_at(instance, *arc);
        if let Some(after) = tight(x, with_tolls, table, left) {
            return (*arc, after);
        }
    }
    unreachable!()
}

/// The reach of the arc's head, where a node of reach `left` has it by this arc.
fn tight(x: NetArc, with_tolls: bool, table: &[Option<Reach>], left: Reach) -> Option<Reach>
    requires limits { IsArc (length table.now) x }
    requires more { 0 < left.arcs }
    ensures { MatchOption result
        ((h : Reach) → IsTight with_tolls table.now left x h → ⊥)
        (IsTight with_tolls table.now left x) }
{
    if !is_usable(x, with_tolls) {
        return None;
    }
    let Some(after) = table[x.head.0 as usize] else {
        return None;
    };
    if leaves(left, x, after) {
        Some(after)
    } else {
        None
    }
}

/// Whether the reach through the arc to a node of reach `after` is `left`.
fn leaves(left: Reach, x: NetArc, after: Reach) -> bool
    requires more { 0 < left.arcs }
    ensures { MatchBool result
        ((after.cost + x.cost ≡ left.cost) × (after.arcs + 1 ≡ left.arcs))
        ((after.cost + x.cost ≡ left.cost) × (after.arcs + 1 ≡ left.arcs) → ⊥) }
{
    let cost = u64::from(x.cost);
    cost <= left.cost && after.cost == left.cost - cost && after.arcs == left.arcs - 1
}
