//! What a list of arcs is and costs.

ghost use Rattle.std.specs.Prelude.{◌≡◌, ◌<◌, ◌≤◌, ◌^◌, ◌↔◌, ℕ, length, All, IsTrue, IfOk};
ghost use Rattle.npp_net.specs.Walk.{IsWalk, walk_cost, walk_tolls};

use crate::instance::Instance;
use crate::types::{ArcId, NodeId, TollId};

/// Whether the arcs are a walk: each is an arc of the instance, the first begins at `from`, each further one begins
/// where the last ended, and the last ends at `to`. The empty list is a walk exactly where `from` is `to`.
pub fn is_walk(instance: &Instance, from: NodeId, to: NodeId, arcs: &[ArcId]) -> bool
    ensures { IsTrue result ↔ IsWalk instance.now.arcs from.0 to.0 arcs.now }
{
    let list = instance.arcs();
    let mut node = from.0;
    for arc in arcs {
        let place = arc.0 as usize;
        if place >= list.len() {
            return false;
        }
        let x = list[place];
        if x.tail.0 != node {
            return false;
        }
        node = x.head.0;
    }
    node == to.0
}

/// The sum of the costs of the arcs, each as often as it stands.
pub fn walk_cost(instance: &Instance, arcs: &[ArcId]) -> u64
    requires in_range { All (λ a. a.0 < length instance.now.arcs) arcs.now }
    requires few { length arcs.now < 2 ^ 32 }
    ensures { result ≡ walk_cost instance.now.arcs arcs.now }
{
    let list = instance.arcs();
    let mut total: u64 = 0;
    for arc in arcs {
        total += u64::from(list[arc.0 as usize].cost);
    }
    total
}

/// How often the toll arc stands among the arcs.
pub fn walk_tolls(instance: &Instance, arcs: &[ArcId], toll: TollId) -> u32
    requires in_range { All (λ a. a.0 < length instance.now.arcs) arcs.now }
    requires few { length arcs.now < 2 ^ 32 }
    ensures { result ≡ walk_tolls instance.now.arcs arcs.now toll.0 }
{
    let mut times: u32 = 0;
    for arc in arcs {
        if instance.toll_of(*arc) == Some(toll) {
            times += 1;
        }
    }
    times
}
