//! The nodes that wait to be settled.

ghost use Rattle.std.specs.Prelude.{◌≡◌, [], ◌∷◌, OnOk, MatchOption, All, IsPermutation};
ghost use Rattle.npp_short.specs.Reach.{IsNoFarther};

use crate::reach::Reach;
use npp_net::{Memory, NodeId};
use std::alloc::Global;
use std::cmp::Reverse;
use std::collections::BinaryHeap;
use std::marker::Model;

/// Nodes with reaches, of which a nearest is taken first. A node may stand in it more than once.
#[derive(Drop)]
pub struct Queue {
    heap: BinaryHeap<Reverse<(u64, u32, u32)>>,
}

impl Model for Queue {
    ghost use Rattle.std.specs.Prelude.{List, map};
    ghost use Rattle.std.specs.BinaryHeap.{IsHeap, heap_items};
    ghost use Rattle.npp_net.specs.declared.types.NodeId.{NodeId};
    ghost use Rattle.npp_short.specs.declared.reach.Reach.{Reach};
    ghost use Rattle.npp_short.specs.Keys.{waiting_of, key_cmp};

    ghost Value = { List (NodeId × Reach) };

    ghost view = { λ q. map waiting_of (heap_items q.heap) };

    ghost invariant = { λ q. IsHeap key_cmp (heap_items q.heap) };
}

impl Queue {
    /// A queue with no node.
    pub fn new(alloc: Global) -> Queue
        ensures { result ≡ [] }
    {
        Queue {
            heap: BinaryHeap::new(alloc),
        }
    }

    /// Adds a node with a reach.
    pub fn push(&mut self, node: NodeId, reach: Reach) -> Result<(), Memory>
        ensures { OnOk result (IsPermutation ((node, reach) ∷ self.old) self.new) }
    {
        self.heap.push(Reverse((reach.cost, reach.arcs, node.0)))?;
        Ok(())
    }

    /// Takes out a node of which no other has a nearer reach.
    pub fn pop(&mut self) -> Option<(NodeId, Reach)>
        ensures { MatchOption result (self.old ≡ []) (λ first.
            IsPermutation self.old (first ∷ self.new) × All (λ w. IsNoFarther first.1 w.1) self.old) }
    {
        let Reverse((cost, arcs, node)) = self.heap.pop()?;
        Some((NodeId(node), Reach { cost, arcs }))
    }
}
