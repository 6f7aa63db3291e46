//! Bounds of nodes, and the bound of a tree.

ghost use Rattle.std.specs.Prelude.{◌≡◌, map};
ghost use Rattle.npp_tree.specs.Bounds.{bound_value, is_below, lesser, greater};
ghost use Rattle.npp_tree.specs.Outcome.{entry_value};
ghost use Rattle.npp_tree.specs.Tree.{Node, Tree, leaves_bound, preorder, tree_bound};

use crate::node::{Branch, CertTree};
use npp_frac::{Exact, Frac128, is_below};

/// What bounds the revenue of each outcome of a node.
#[derive(Clone, Copy, Debug)]
pub enum Bound {
    /// The node has no outcome. It is below every fraction.
    Empty,
    /// No outcome of the node earns more.
    At(Frac128),
}

impl Bound {
    /// Whether it is below the other.
    pub fn is_below(self, other: Bound) -> bool
        ensures { result ≡ is_below (bound_value self) (bound_value other) }
    {
        match other {
            Bound::Empty => false,
            Bound::At(b) => match self {
                Bound::Empty => true,
                Bound::At(a) => is_below(a, b),
            },
        }
    }

    /// The lesser of two bounds.
    pub fn lesser(self, other: Bound) -> Bound
        ensures { bound_value result ≡ lesser (bound_value self) (bound_value other) }
    {
        if other.is_below(self) { other } else { self }
    }

    /// The greater of two bounds.
    pub fn greater(self, other: Bound) -> Bound
        ensures { bound_value result ≡ greater (bound_value self) (bound_value other) }
    {
        if self.is_below(other) { other } else { self }
    }
}

/// The greatest bound of a leaf, and Empty where there is none. No outcome of the tree's root earns more than it.
///
/// It takes no memory.
pub fn bound_of<N: Exact>(tree: &CertTree<N>) -> Bound
    ensures leaves { bound_value result ≡ leaves_bound (map (entry_value N.rational) tree.now.nodes) }
    ensures tree { (t : Tree Node) → map (entry_value N.rational) tree.now.nodes ≡ preorder t → bound_value result ≡ tree_bound t }
{
    let mut greatest = Bound::Empty;
    for node in tree.nodes.entries() {
        if let Branch::Leaf = node.branch {
            greatest = greatest.greater(node.bound);
        }
    }
    greatest
}
