//! The nodes that wait to be opened.

ghost use Rattle.std.specs.Prelude.{◌≡◌, ◌++◌, ◌∷◌, [], true, IsTrue, OnOk, OnErr, IfOk, IfSome, IfNone, IsPermutation};
ghost use Rattle.npp_frac.specs.Wide.{value_of_wide};

use crate::listed::NodeList;
use crate::picker::{NodeOrder, OpenNode, Picker};
use crate::ranking::Ranking;
use npp_frac::Frac128;
use npp_net::Memory;
use npp_rows::Allowed;
use std::alloc::Global;
use std::marker::Model;

/// A node that waits to be opened.
#[derive(Debug, Drop)]
pub(crate) struct Waiting {
    /// What pickers see of it.
    pub(crate) seen: OpenNode,
    /// Its key in the tree.
    pub(crate) key: usize,
    /// The paths that it allows.
    pub(crate) allowed: Allowed,
}

/// The nodes that wait. A picker that goes by an order finds them in a heap, and one that names a node in a list.
#[derive(Drop)]
pub(crate) struct WaitingList {
    /// Those that an order has placed.
    ranked: Ranking,
    /// The others.
    listed: NodeList,
}

impl Model for WaitingList {
    ghost use Rattle.std.specs.Prelude.{◌++◌, List};
    ghost use Rattle.npp_search.specs.declared.waiting.Waiting.{Waiting};

    ghost Value = { List Waiting };

    ghost view = { λ w. w.ranked.nodes ++ w.listed };
}

/// Moves all nodes to the list.
fn list_all(ranked: &mut Ranking, listed: &mut NodeList) -> Result<(), Memory>
    ensures none { OnOk result (ranked.new.nodes ≡ []) }
    ensures all { OnOk result (IsPermutation (ranked.old.nodes ++ listed.old) listed.new) }
{
    while let Some(node) = ranked.pop() {
        listed.push(node)?;
    }
    Ok(())
}

/// Goes by an order from now on.
fn arrange(order: NodeOrder, ranked: &mut Ranking, listed: &mut NodeList) -> Result<(), Memory>
    ensures order { OnOk result (ranked.new.order ≡ order) }
    ensures all { OnOk result (IsPermutation (ranked.old.nodes ++ listed.old) (ranked.new.nodes ++ listed.new)) }
{
    if ranked.order() == order {
        return Ok(());
    }
    list_all(ranked, listed)?;
    ranked.start(order);
    Ok(())
}

/// Moves all nodes to the heap of an order.
fn rank_all(order: NodeOrder, ranked: &mut Ranking, listed: &mut NodeList) -> Result<(), Memory>
    ensures order { OnOk result (ranked.new.order ≡ order) }
    ensures none { OnOk result (listed.new ≡ []) }
    ensures all { OnOk result (IsPermutation (ranked.old.nodes ++ listed.old) ranked.new.nodes) }
{
    arrange(order, ranked, listed)?;
    while let Some(node) = listed.pop() {
        ranked.push(node)?;
    }
    Ok(())
}

impl WaitingList {
    ghost use Rattle.npp_search.specs.Rank.{IsFirst};
    ghost use Rattle.npp_search.specs.Search.{TakesOne, IsGreatest, still_waiting};

    /// No node.
    pub(crate) fn new(alloc: Global) -> WaitingList
        ensures { result ≡ [] }
    {
        WaitingList {
            ranked: Ranking::new(alloc, NodeOrder::GreatestBound),
            listed: NodeList::new(alloc),
        }
    }

    /// Whether no node waits.
    pub(crate) fn is_empty(&self) -> bool
        ensures yes { IsTrue result → self.now ≡ [] }
        ensures no { (IsTrue result → ⊥) → self.now ≡ [] → ⊥ }
    {
        self.ranked.is_empty() && self.listed.is_empty()
    }

    /// Adds a node.
    pub(crate) fn push(&mut self, node: Waiting) -> Result<(), Memory>
        ensures ok { OnOk result (self.new ≡ self.old ++ node ∷ []) }
        ensures err { OnErr result (self.new ≡ self.old) }
    {
        self.listed.push(node)
    }

    /// Takes out the node that comes first by an order, if there is any.
    fn take_first(&mut self, order: NodeOrder) -> Result<Option<Waiting>, Memory>
        ensures none { IfOk result (λ taken. IfNone taken (self.old ≡ [])) }
        ensures kept { IfOk result (λ taken. IfNone taken (self.new ≡ self.old)) }
        ensures taken { IfOk result (λ taken. IfSome taken (TakesOne self.old self.new)) }
        ensures first { IfOk result (λ taken. IfSome taken (IsFirst order self.old)) }
    {
        rank_all(order, &mut self.ranked, &mut self.listed)?;
        Ok(self.ranked.pop())
    }

    /// Takes out the node that the picker names, if there is any.
    fn take_named<P: Picker>(&mut self, picker: &mut P) -> Result<Option<Waiting>, Memory>
        ensures picker { P.best_first picker.new ≡ P.best_first picker.old }
        ensures none { IfOk result (λ taken. IfNone taken (self.old ≡ [])) }
        ensures kept { IfOk result (λ taken. IfNone taken (self.new ≡ self.old)) }
        ensures taken { IfOk result (λ taken. IfSome taken (TakesOne self.old self.new)) }
        ensures greatest { P.best_first picker.old ≡ true → IfOk result (λ taken. IfSome taken (IsGreatest self.old)) }
    {
        list_all(&mut self.ranked, &mut self.listed)?;
        Ok(self.listed.take(picker))
    }

    /// Takes out the node that the picker takes next, if there is any.
    pub(crate) fn take<P: Picker>(&mut self, picker: &mut P) -> Result<Option<Waiting>, Memory>
        ensures picker { P.best_first picker.new ≡ P.best_first picker.old }
        ensures none { IfOk result (λ taken. IfNone taken (self.old ≡ [])) }
        ensures kept { IfOk result (λ taken. IfNone taken (self.new ≡ self.old)) }
        ensures taken { IfOk result (λ taken. IfSome taken (TakesOne self.old self.new)) }
        ensures greatest { P.best_first picker.old ≡ true → IfOk result (λ taken. IfSome taken (IsGreatest self.old)) }
    {
        match picker.order() {
            Some(order) => self.take_first(order),
            None => self.take_named(picker),
        }
    }

    /// Drops the nodes whose bound is not above this value.
    pub(crate) fn drop_dead(&mut self, lower: Frac128)
        ensures { IsPermutation (still_waiting (value_of_wide lower) self.old) self.new }
    {
        self.ranked.drop_dead(lower);
        self.listed.drop_dead(lower);
    }
}
