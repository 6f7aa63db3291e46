//! The labels that wait, by the order in which they are taken.

ghost use Rattle.std.specs.Prelude.{◌≡◌, [], ◌∷◌, OnOk, MatchOption, All, IsPermutation};
ghost use Rattle.npp_labels.specs.Order.{IsNoLater};

use crate::pending::Pending;
use npp_net::Memory;
use std::alloc::Global;
use std::cmp::Reverse;
use std::collections::BinaryHeap;
use std::marker::Model;

/// Labels that wait, of which the first is taken out first.
#[derive(Drop)]
pub struct Queue {
    heap: BinaryHeap<Reverse<Pending>>,
}

impl Model for Queue {
    ghost use Rattle.std.specs.Prelude.{List, map};
    ghost use Rattle.std.specs.BinaryHeap.{IsHeap, heap_items};
    ghost use Rattle.npp_labels.specs.declared.pending.Pending.{Pending};
    ghost use Rattle.npp_labels.specs.Order.{waiting_of, key_cmp};

    ghost Value = { List Pending };

    ghost view = { λ q. map waiting_of (heap_items q.heap) };

    ghost invariant = { λ q. IsHeap key_cmp (heap_items q.heap) };
}

impl Queue {
    /// A queue in which nothing waits.
    pub fn new(alloc: Global) -> Queue
        ensures { result ≡ [] }
    {
        Queue {
            heap: BinaryHeap::new(alloc),
        }
    }

    /// Adds one that waits.
    pub fn push(&mut self, next: Pending) -> Result<(), Memory>
        ensures { OnOk result (IsPermutation (next ∷ self.old) self.new) }
    {
        self.heap.push(Reverse(next))?;
        Ok(())
    }

    /// Takes out one that no other comes before.
    pub fn pop(&mut self) -> Option<Pending>
        ensures { MatchOption result (self.old ≡ []) (λ first.
            IsPermutation self.old (first ∷ self.new) × All (IsNoLater first) self.old) }
    {
        let Reverse(first) = self.heap.pop()?;
        Some(first)
    }
}
