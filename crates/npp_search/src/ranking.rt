//! Nodes that wait in the order in which they are taken.

ghost use Rattle.std.specs.Prelude.{◌≡◌, ◌∷◌, [], IsTrue, OnOk, MatchOption, IsPermutation};
ghost use Rattle.npp_frac.specs.Wide.{value_of_wide};
ghost use Rattle.npp_search.specs.Rank.{IsFirst};
ghost use Rattle.npp_search.specs.Search.{still_waiting};

use crate::picker::NodeOrder;
use crate::ranked::{Ranked, level_of};
use crate::waiting::Waiting;
use npp_frac::{Frac128, is_below};
use npp_net::Memory;
use std::alloc::Global;
use std::collections::BinaryHeap;
use std::marker::Model;

/// Nodes that wait, of which the first by an order is taken out first.
#[derive(Drop)]
pub(crate) struct Ranking {
    order: NodeOrder,
    heap: BinaryHeap<Ranked>,
}

impl Model for Ranking {
    ghost use Rattle.std.specs.Prelude.{All, map};
    ghost use Rattle.std.specs.BinaryHeap.{IsHeap, heap_items};
    ghost use Rattle.npp_search.specs.Rank.{RankingValue, node_of, ranked_cmp, IsAtLevel};

    ghost Value = { RankingValue };

    ghost view = { λ r. record { order = r.order; nodes = map node_of (heap_items r.heap) } };

    ghost invariant = { λ r. IsHeap ranked_cmp (heap_items r.heap) × All (IsAtLevel r.order) (heap_items r.heap) };
}

impl Ranking {
    /// No node.
    pub(crate) fn new(alloc: Global, order: NodeOrder) -> Ranking
        ensures order { result.order ≡ order }
        ensures nodes { result.nodes ≡ [] }
    {
        Ranking {
            order,
            heap: BinaryHeap::new(alloc),
        }
    }

    /// The order.
    pub(crate) fn order(&self) -> NodeOrder
        ensures { result ≡ self.now.order }
    {
        self.order
    }

    /// Goes by an order from now on, where there is no node yet.
    pub(crate) fn start(&mut self, order: NodeOrder)
        requires { self.old.nodes ≡ [] }
        ensures order { self.new.order ≡ order }
        ensures nodes { self.new.nodes ≡ [] }
    {
        self.order = order;
    }

    /// Whether there is no node.
    pub(crate) fn is_empty(&self) -> bool
        ensures yes { IsTrue result → self.now.nodes ≡ [] }
        ensures no { (IsTrue result → ⊥) → self.now.nodes ≡ [] → ⊥ }
    {
        self.heap.is_empty()
    }

    /// Adds a node.
    pub(crate) fn push(&mut self, node: Waiting) -> Result<(), Memory>
        ensures order { self.new.order ≡ self.old.order }
        ensures nodes { OnOk result (IsPermutation (node ∷ self.old.nodes) self.new.nodes) }
    {
        let level = level_of(self.order, &node);
        self.heap.push(Ranked { level, node })?;
        Ok(())
    }

    /// Takes out the node that comes first, if there is any.
    pub(crate) fn pop(&mut self) -> Option<Waiting>
        ensures order { self.new.order ≡ self.old.order }
        ensures nodes { MatchOption result ((self.old.nodes ≡ []) × (self.new.nodes ≡ [])) (λ w. IsPermutation self.old.nodes (w ∷ self.new.nodes)) }
        ensures first { MatchOption result (Unit {0}) (IsFirst self.old.order self.old.nodes) }
    {
        let Ranked { node, .. } = self.heap.pop()?;
        Some(node)
    }

    /// Drops the nodes whose bound is not above this value.
    pub(crate) fn drop_dead(&mut self, lower: Frac128)
        ensures order { self.new.order ≡ self.old.order }
        ensures nodes { IsPermutation (still_waiting (value_of_wide lower) self.old.nodes) self.new.nodes }
    {
        self.heap
            .retain(|ranked| is_below(lower, ranked.node.seen.bound));
    }
}
