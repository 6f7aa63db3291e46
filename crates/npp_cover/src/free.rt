//! The toll-free walk of a draft.

ghost use Rattle.std.specs.Prelude.{◌≡◌, ◌==◌, ◌&&◌};
ghost use Rattle.npp_net.specs.Walk.{walk_cost};
ghost use Rattle.npp_cover.specs.Fault.{is_free_walk};

use npp_net::{ArcId, Instance, NodeId};

/// Whether the arcs are a toll-free walk from one node to the other, of this cost.
pub(crate) fn is_free_walk(
    instance: &Instance,
    from: NodeId,
    to: NodeId,
    cost: u64,
    arcs: &[ArcId],
) -> bool
    ensures { result ≡ (is_free_walk instance.now.arcs from.0 to.0 arcs.now && (walk_cost instance.now.arcs arcs.now == cost)) }
{
    let list = instance.arcs();
    let mut node = from.0;
    let mut left = cost;
    for arc in arcs {
        let place = arc.0 as usize;
        if place >= list.len() {
            return false;
        }
        let x = list[place];
        if x.tail.0 != node || x.toll || u64::from(x.cost) > left {
            return false;
        }
        node = x.head.0;
        left -= u64::from(x.cost);
    }
    node == to.0 && left == 0
}
