//! Two parallel arcs, and the refusal of a commodity without a toll-free walk.

use crate::network::instance_of;
use npp_bounds::{basic_bound, free_and_zero, least_costs};
use npp_net::Instance;
use std::alloc::{AllocError, Global};
use std::test::Fail;

/// The least costs with their walks, and the bound; or the refusal.
fn bound_text(alloc: Global, net: &Instance) -> Result<String, AllocError> {
    match least_costs(alloc, net) {
        Ok(costs) => {
            let bound = basic_bound(net, &costs.spans);
            format!(in alloc; "{:?} {:?} {bound}", costs.spans, costs.walks)
        }
        Err(refusal) => format!(in alloc; "{refusal}"),
    }
}

/// The least costs, or the refusal.
fn spans_text(alloc: Global, net: &Instance) -> Result<String, AllocError> {
    match free_and_zero(alloc, net) {
        Ok(spans) => format!(in alloc; "{spans:?}"),
        Err(refusal) => format!(in alloc; "{refusal:?}"),
    }
}

/// Networks with their bounds and their spans.
const BOUNDS: &[(&str, &str, &str)] = &[
    (
        "npp 1\nnode 0\nnode 1\nfree 0 1 10\ntoll 0 1 2\npair 0 1 5\n",
        "[Span { free: 10, zero: 2 }] [Walk { arcs: [ArcId(1)] }] 40",
        "[Span { free: 10, zero: 2 }]",
    ),
    (
        "npp 1\nnode 0\nnode 1\nfree 0 1 10\npair 0 1 5\npair 1 0 5\n",
        "no toll-free walk for commodity 1",
        "NoFreePath(1)",
    ),
];

#[test]
fn a_toll_arc_is_worth_the_difference(rt: HostRuntime) -> Result<(), Fail> {
    let alloc = rt.alloc();
    for (text, bound, spans) in BOUNDS {
        let net = instance_of(alloc, text)?;
        let (got_bound, got_spans) = (bound_text(alloc, &net)?, spans_text(alloc, &net)?);
        assert_eq!(rt; [got_bound.as_str(), got_spans.as_str()], [*bound, *spans]);
    }
    Ok(())
}
