//! A network with parallel arcs, a loop and a cycle that costs nothing.

use crate::network::instance_of;
use npp_net::{Instance, NodeId};
use npp_short::{distances_to, walk_from};
use std::alloc::Global;
use std::test::Fail;

const NETWORK: &str =
    "npp 1\nnode 0\nnode 1\nnode 2\nnode 3\nfree 0 1 10\ntoll 0 1 2\nfree 1 1 0\nfree 1 2 0\nfree 2 1 0\nfree 2 3 5\nfree 2 3 4\npair 0 3 1\n";

/// The least cost from a node to another, and a walk of that cost.
fn shortest(
    alloc: Global,
    net: &Instance,
    from: u32,
    to: u32,
    with_tolls: bool,
) -> Result<String, Fail> {
    if from >= net.nodes() || to >= net.nodes() {
        return Err("no such node")?;
    }
    let (from, to) = (NodeId(from), NodeId(to));
    let costs = distances_to(alloc, net, to, with_tolls)?;
    let walk = walk_from(alloc, net, &costs, from, to, with_tolls)?;
    Ok(format!(in alloc; "{:?} {walk:?}", costs.at(from))?)
}

const WALKS: &[(u32, u32, bool, &str)] = &[
    (
        0,
        3,
        true,
        "Some(6) Some(Walk { arcs: [ArcId(1), ArcId(3), ArcId(6)] })",
    ),
    (3, 3, true, "Some(0) Some(Walk { arcs: [] })"),
    (
        0,
        3,
        false,
        "Some(14) Some(Walk { arcs: [ArcId(0), ArcId(3), ArcId(6)] })",
    ),
    (3, 0, true, "None None"),
];

#[test]
fn least_costs_count_the_cheapest_parallel_arc(rt: HostRuntime) -> Result<(), Fail> {
    let net = instance_of(rt.alloc(), NETWORK)?;
    for (from, to, with_tolls, want) in WALKS {
        let got = shortest(rt.alloc(), &net, *from, *to, *with_tolls)?;
        assert_eq!(rt; got.as_str(), *want);
    }
    Ok(())
}
