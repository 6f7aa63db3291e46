//! Orders of nodes that wait to be opened.

ghost use Rattle.std.specs.Prelude.{◌<◌, IsTrue, length};
ghost use Rattle.npp_search.specs.declared.picker.OpenNode.{OpenNode};
ghost use Rattle.npp_search.specs.Picker.{IsFirstBy};

use crate::picker::OpenNode;

/// An order in which nodes are opened. Of any two nodes one comes no later than the other.
pub trait Order {
    /// Whether the one node comes no later than the other.
    ghost comes_first: { OpenNode → OpenNode → Type 0 };

    /// Whether the one node comes no later than the other. Where it does not, the other comes no later than it.
    fn is_first(node: &OpenNode, other: &OpenNode) -> bool
        ensures yes { IsTrue result → comes_first node.now other.now }
        ensures no { ¬ IsTrue result → comes_first other.now node.now };

    ghost comes_after_itself: { (n : OpenNode) → comes_first n n };

    ghost goes_on: { (n m k : OpenNode) → comes_first n m → comes_first m k → comes_first n k };
}

/// The place of a node that comes no later than any of the list.
pub fn first_place<R: Order>(live: &[OpenNode]) -> usize
    requires { 0 < length live.now }
    ensures in_range { result < length live.now }
    ensures first { IsFirstBy R.comes_first live.now result }
{
    let mut best = 0;
    for place in 1..live.len() {
        if R::is_first(&live[place], &live[best]) {
            best = place;
        }
    }
    best
}
