//! The arcs at each node.

ghost use Rattle.std.specs.Prelude.{◌≡◌, ◌<◌, ◌≤◌, ℕ, length, All, IfOk};
ghost use Rattle.npp_net.specs.Network.{IsArc};
ghost use Rattle.npp_net.specs.Ends.{AreArcsAt, end_of};

use crate::lists::empty_lists;
use crate::types::{ArcId, NetArc};
use std::alloc::{AllocError, Global};

/// One of the two ends of an arc.
#[derive(Clone, Copy, Debug, PartialEq, Eq)]
pub enum End {
    /// Where the arc begins.
    Tail,
    /// Where the arc ends.
    Head,
}

/// For each node the arcs that have this end there, in order.
pub fn arcs_at(
    alloc: Global,
    nodes: u32,
    arcs: &[NetArc],
    end: End,
) -> Result<Vec<Vec<ArcId>>, AllocError>
    requires few { length arcs.now ≤ 5000 }
    requires limits { All (IsArc nodes) arcs.now }
    ensures { IfOk result (λ v. AreArcsAt end arcs.now (length arcs.now) nodes v.items) }
{
    let mut lists = empty_lists(alloc, nodes)?;
    for (i, x) in arcs.iter().enumerate() {
        let node = node_at(nodes, *x, end);
        lists[node].push(ArcId(i as u32))?;
    }
    Ok(lists)
}

/// The place of the node at this end of the arc.
fn node_at(nodes: u32, x: NetArc, end: End) -> usize
    requires { IsArc nodes x }
    ensures place { result ≡ end_of end x }
    ensures in_range { result < nodes }
{
    match end {
        End::Tail => x.tail.0 as usize,
        End::Head => x.head.0 as usize,
    }
}
