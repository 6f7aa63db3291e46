//! Nodes that wait in any order, for pickers that name one of them.

ghost use Rattle.std.specs.Prelude.{◌≡◌, ◌++◌, ◌∷◌, [], true, IsTrue, OnOk, OnErr, IfSome, IfNone, MatchOption};
ghost use Rattle.npp_frac.specs.Wide.{value_of_wide};

use crate::picker::{OpenNode, Picker};
use crate::waiting::Waiting;
use npp_frac::{Frac128, is_below};
use npp_net::Memory;
use std::alloc::Global;
use std::marker::Model;

/// Nodes that wait, in any order. What pickers see of them stands in a list of its own, in the same order.
#[derive(Drop)]
pub(crate) struct NodeList {
    seen: Vec<OpenNode>,
    nodes: Vec<Waiting>,
}

impl Model for NodeList {
    ghost use Rattle.std.specs.Prelude.{◌≡◌, List, map};
    ghost use Rattle.npp_search.specs.declared.waiting.Waiting.{Waiting};

    ghost Value = { List Waiting };

    ghost view = { λ w. w.nodes.items };

    ghost invariant = { λ w. w.seen.items ≡ map (λ n. n.seen) w.nodes.items };
}

impl NodeList {
    ghost use Rattle.npp_search.specs.Search.{TakesOne, IsGreatest, still_waiting};

    /// No node.
    pub(crate) fn new(alloc: Global) -> NodeList
        ensures { result ≡ [] }
    {
        NodeList {
            seen: Vec::new(alloc),
            nodes: Vec::new(alloc),
        }
    }

    /// Whether no node waits.
    pub(crate) fn is_empty(&self) -> bool
        ensures yes { IsTrue result → self.now ≡ [] }
        ensures no { (IsTrue result → ⊥) → self.now ≡ [] → ⊥ }
    {
        self.nodes.is_empty()
    }

    /// Adds a node.
    pub(crate) fn push(&mut self, node: Waiting) -> Result<(), Memory>
        ensures ok { OnOk result (self.new ≡ self.old ++ node ∷ []) }
        ensures err { OnErr result (self.new ≡ self.old) }
    {
        self.seen.reserve(1)?;
        self.nodes.reserve(1)?;
        self.seen.push_reserved(node.seen);
        self.nodes.push_reserved(node);
        Ok(())
    }

    /// Takes out the last node, if there is any.
    pub(crate) fn pop(&mut self) -> Option<Waiting>
        ensures { MatchOption result ((self.old ≡ []) × (self.new ≡ [])) (λ w. self.old ≡ self.new ++ w ∷ []) }
    {
        self.seen.pop();
        self.nodes.pop()
    }

    /// Takes out the node that the picker names, if there is any.
    pub(crate) fn take<P: Picker>(&mut self, picker: &mut P) -> Option<Waiting>
        ensures picker { P.best_first picker.new ≡ P.best_first picker.old }
        ensures none { IfNone result (self.old ≡ []) }
        ensures kept { IfNone result (self.new ≡ self.old) }
        ensures taken { IfSome result (TakesOne self.old self.new) }
        ensures greatest { P.best_first picker.old ≡ true → IfSome result (IsGreatest self.old) }
    {
        if self.seen.is_empty() {
            return None;
        }
        let place = picker.pick(&self.seen);
        self.seen.swap_remove(place);
        Some(self.nodes.swap_remove(place))
    }

    /// Drops the nodes whose bound is not above this value.
    pub(crate) fn drop_dead(&mut self, lower: Frac128)
        ensures { self.new ≡ still_waiting (value_of_wide lower) self.old }
    {
        self.seen.retain(|node| is_below(lower, node.bound));
        self.nodes.retain(|node| is_below(lower, node.seen.bound));
    }
}
