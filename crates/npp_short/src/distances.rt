//! The search for the least costs, after Dijkstra (1959): nodes are settled one by one, the nearest first.
//! A node stays in the queue when it comes nearer, and is passed over once it is settled.

ghost use Rattle.std.specs.Prelude.{◌≡◌, ◌<◌, ◌≤◌, length, IfOk, IfSome, OnOk, MatchOption, MatchBool, Some, None, replicate, false, true, slice_set};
ghost use Rattle.npp_net.specs.Network.{IsNetwork, IsArc, arc_at};
ghost use Rattle.npp_net.specs.Distance.{IsUsable};
ghost use Rattle.npp_short.specs.Reach.{reach_at, through};
ghost use Rattle.npp_short.specs.Potentials.{ArePotentials, AreDistances};
ghost use Rattle.npp_short.specs.Settling.{Settles, Offers, IsNext, AllDone, Awaits, KeepsWaiting, IsWaiting};

use crate::potentials::Potentials;
use crate::queue::Queue;
use crate::reach::Reach;
use npp_net::{ArcId, Instance, Memory, NetArc, NodeId};
use std::alloc::{AllocError, Global};

/// The least cost from each node to the destination, over all walks of whatever length.
///
/// Toll arcs are used at zero toll where `with_tolls` is true, and left out where it is false.
pub fn distances_to(
    alloc: Global,
    instance: &Instance,
    destination: NodeId,
    with_tolls: bool,
) -> Result<Potentials, Memory>
    requires { destination.0 < instance.now.nodes }
    ensures potentials { IfOk result (ArePotentials instance.now.arcs with_tolls instance.now.nodes destination.0) }
    ensures distances { IfOk result (AreDistances instance.now.arcs with_tolls instance.now.nodes destination.0) }
{
    let nodes = instance.nodes() as usize;
    let mut table = no_reach(alloc, nodes)?;
    let mut done = none_done(alloc, nodes)?;
    settle_all(
        alloc,
        instance,
        with_tolls,
        destination,
        &mut table,
        &mut done,
    )?;
    Ok(Potentials::of_table(table))
}

/// One entry for each node, with no reach.
fn no_reach(alloc: Global, nodes: usize) -> Result<Vec<Option<Reach>>, AllocError>
    ensures { IfOk result (λ v. v.items ≡ replicate nodes None) }
{
    vec![in alloc; None; nodes]
}

/// One mark for each node, none settled.
fn none_done(alloc: Global, nodes: usize) -> Result<Vec<bool>, AllocError>
    ensures { IfOk result (λ v. v.items ≡ replicate nodes false) }
{
    vec![in alloc; false; nodes]
}

/// Settles each node that has a walk to the destination.
fn settle_all(
    alloc: Global,
    instance: &Instance,
    with_tolls: bool,
    destination: NodeId,
    table: &mut [Option<Reach>],
    done: &mut [bool],
) -> Result<(), Memory>
    requires empty { table.old ≡ replicate instance.now.nodes None }
    requires none { done.old ≡ replicate instance.now.nodes false }
    requires limits { IsNetwork instance.now }
    requires within { destination.0 < instance.now.nodes }
    ensures { OnOk result (ArePotentials instance.now.arcs with_tolls instance.now.nodes destination.0 table.new) }
{
    let start = Reach { cost: 0, arcs: 0 };
    let mut queue = Queue::new(alloc);
    queue.push(destination, start)?;
    table[destination.0 as usize] = Some(start);
    let mut settled = 0u32;
    while let Some((node, from)) = next_node(&mut queue, table, done) {
        settle(instance, with_tolls, node, from, table, &mut queue)?;
        done[node.0 as usize] = true;
        settled += 1;
    }
    Ok(())
}

/// A nearest node that is not settled, with its reach.
fn next_node(queue: &mut Queue, table: &[Option<Reach>], done: &[bool]) -> Option<(NodeId, Reach)>
    requires same { length table.now ≡ length done.now }
    requires waiting { Awaits table.now done.now queue.old }
    ensures next { MatchOption result (AllDone table.now done.now) (λ n. IsNext table.now done.now n.0.0 n.1) }
    ensures waiting { IfSome result (λ n. Awaits table.now (slice_set done.now n.0.0 true) queue.new) }
{
    while let Some((node, _)) = queue.pop() {
        if let Some(reach) = entry_of(node, table, done) {
            return Some((node, reach));
        }
    }
    None
}

/// The reach of a node that is not settled.
fn entry_of(node: NodeId, table: &[Option<Reach>], done: &[bool]) -> Option<Reach>
    requires same { length table.now ≡ length done.now }
    requires within { node.0 < length table.now }
    ensures { IsWaiting table.now done.now node.0 result }
{
    if done[node.0 as usize] {
        return None;
    }
    table[node.0 as usize]
}

/// Relaxes each arc into the node that may be used.
fn settle(
    instance: &Instance,
    with_tolls: bool,
    node: NodeId,
    from: Reach,
    table: &mut [Option<Reach>],
    queue: &mut Queue,
) -> Result<(), Memory>
    requires within { node.0 < instance.now.nodes }
    requires size { length table.old ≡ instance.now.nodes }
    requires cost { from.cost ≤ 1000000000 }
    requires count { from.arcs ≤ 1000 }
    ensures settles { OnOk result (Settles instance.now.arcs with_tolls node.0 from table.old table.new) }
    ensures waiting { OnOk result (KeepsWaiting table.old queue.old table.new queue.new) }
{
    for arc in instance.entering(node) {
        let x = arc_at(instance, *arc);
        if is_usable(x, with_tolls) {
            relax(x, from, table, queue)?;
        }
    }
    Ok(())
}

/// Puts the reach through an arc in the place of one that is farther, and the arc's tail into the queue.
fn relax(
    x: NetArc,
    from: Reach,
    table: &mut [Option<Reach>],
    queue: &mut Queue,
) -> Result<(), Memory>
    requires arc { IsArc (length table.old) x }
    requires cost { from.cost ≤ 1000000000 }
    requires count { from.arcs ≤ 1000 }
    ensures offers { OnOk result (Offers x from table.old table.new) }
    ensures waiting { OnOk result (KeepsWaiting table.old queue.old table.new queue.new) }
{
    if let Some(reach) = offer(x, from, table) {
        queue.push(x.tail, reach)?;
    }
    Ok(())
}

/// Puts the reach through an arc in the place of one that is farther, and gives the reach that was put.
fn offer(x: NetArc, from: Reach, table: &mut [Option<Reach>]) -> Option<Reach>
    requires arc { IsArc (length table.old) x }
    requires cost { from.cost ≤ 1000000000 }
    requires count { from.arcs ≤ 1000 }
    ensures offers { Offers x from table.old table.new }
    ensures put { MatchOption result
        (table.new ≡ table.old)
        (λ r. (r ≡ through x from) × (reach_at table.new x.tail.0 ≡ Some r)) }
{
    let tail = x.tail.0 as usize;
    let reach = Reach {
        cost: from.cost + u64::from(x.cost),
        arcs: from.arcs + 1,
    };
    match table[tail] {
        Some(old) if !reach.is_nearer(old) => None,
        _ => {
            table[tail] = Some(reach);
            Some(reach)
        }
    }
}

/// The arc of this number.
pub(crate) fn arc_at(instance: &Instance, arc: ArcId) -> NetArc
    requires { arc.0 < length instance.now.arcs }
    ensures value { result ≡ arc_at instance.now.arcs arc }
    ensures limits { IsArc instance.now.nodes result }
{
    instance.arcs()[arc.0 as usize]
}

/// Whether the arc may be used, with toll arcs or without.
pub(crate) fn is_usable(x: NetArc, with_tolls: bool) -> bool
    ensures { MatchBool result (IsUsable with_tolls x) (¬ IsUsable with_tolls x) }
{
    with_tolls || !x.toll
}
