//! Which of the nodes that wait is opened next.

ghost use Rattle.std.specs.Prelude.{◌≡◌, ◌<◌, Bool, true, false, length, Some, IfSome};
ghost use Rattle.npp_search.specs.Picker.{IsGreatestAt, IsFirstBy, IsBetterBound, IsDeeper};

use crate::order::{Order, first_place};
use npp_frac::{Exact, Frac128};
use std::cmp::Ordering;

/// A node that waits to be opened.
#[derive(Clone, Copy, Debug, PartialEq, Eq)]
pub struct OpenNode {
    /// Its place in the order in which nodes were made, from 0: the root, and of a split the first child before the second.
    pub number: u64,
    /// How many splits lead to it.
    pub depth: u32,
    /// What no outcome of it exceeds.
    pub bound: Frac128,
}

/// An order in which nodes are taken.
#[derive(Clone, Copy, Debug, PartialEq, Eq)]
pub enum NodeOrder {
    /// The greatest bound first, and of those the node that was made first.
    GreatestBound,
    /// The greatest depth first, of those the greatest bound, and of those the node that was made first.
    GreatestDepth,
}

/// A rule by which the next node is taken.
pub trait Picker {
    /// Whether it always takes a node with the greatest bound. No call changes it.
    ghost best_first: { Self → Bool };

    /// The place of the node that is opened next, among those whose bound is above the lower value.
    fn pick(&mut self, live: &[OpenNode]) -> usize
        requires { 0 < length live.now }
        ensures in_range { result < length live.now }
        ensures same { best_first self.new ≡ best_first self.old }
        ensures greatest { best_first self.old ≡ true → IsGreatestAt live.now result };

    /// The order in which nodes are taken, if there is one. The search then keeps the nodes in this order and takes the first
    /// of them at once. Without one it lets `pick` name a node, which looks at all that wait.
    fn order(&self) -> Option<NodeOrder>
        ensures greatest { best_first self.now ≡ true → IfSome result (λ o. o ≡ NodeOrder.GreatestBound) }
    {
        None
    }
}

/// Takes the node with the greatest bound, and of those the one that was made first.
#[derive(Clone, Copy, Debug)]
pub struct BestBound;

/// Takes the node with the greatest depth, of those one with the greatest bound, and of those the one that was made first.
#[derive(Clone, Copy, Debug)]
pub struct Depth;

impl Order for BestBound {
    ghost use Rattle.npp_search.specs.Picker.{IsBetterBound};
    ghost use Rattle.npp_search.specs.PickerLaws.{better_refl, better_trans};

    ghost comes_first = { IsBetterBound };

    ghost comes_after_itself = { better_refl };

    ghost goes_on = { better_trans };

    fn is_first(node: &OpenNode, other: &OpenNode) -> bool {
        match node.bound.cmp(other.bound) {
            Ordering::Less => false,
            Ordering::Equal => node.number <= other.number,
            Ordering::Greater => true,
        }
    }
}

impl Order for Depth {
    ghost use Rattle.npp_search.specs.Picker.{IsDeeper};
    ghost use Rattle.npp_search.specs.PickerLaws.{deeper_refl, deeper_trans};

    ghost comes_first = { IsDeeper };

    ghost comes_after_itself = { deeper_refl };

    ghost goes_on = { deeper_trans };

    fn is_first(node: &OpenNode, other: &OpenNode) -> bool {
        if node.depth == other.depth {
            BestBound::is_first(node, other)
        } else {
            node.depth > other.depth
        }
    }
}

impl Picker for BestBound {
    ghost best_first = { λ _. true };

    fn pick(&mut self, live: &[OpenNode]) -> usize
        requires { 0 < length live.now }
        ensures in_range { result < length live.now }
        ensures greatest { IsGreatestAt live.now result }
        ensures first { IsFirstBy IsBetterBound live.now result }
    {
        first_place::<BestBound>(live)
    }

    fn order(&self) -> Option<NodeOrder>
        ensures { result ≡ Some NodeOrder.GreatestBound }
    {
        Some(NodeOrder::GreatestBound)
    }
}

impl Picker for Depth {
    ghost best_first = { λ _. false };

    fn pick(&mut self, live: &[OpenNode]) -> usize
        requires { 0 < length live.now }
        ensures in_range { result < length live.now }
        ensures first { IsFirstBy IsDeeper live.now result }
    {
        first_place::<Depth>(live)
    }

    fn order(&self) -> Option<NodeOrder>
        ensures { result ≡ Some NodeOrder.GreatestDepth }
    {
        Some(NodeOrder::GreatestDepth)
    }
}
