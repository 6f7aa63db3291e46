//! A tree under way.

use crate::known::Known;
use crate::places::Places;
use npp_tree::Bound;

/// What finished nodes add up to.
#[derive(Clone, Copy, Debug)]
pub struct Sum {
    /// How many of them were opened.
    pub opened: u64,
    /// The greatest bound of a leaf among them, and Empty where there is none.
    pub bound: Bound,
}

/// A tree under way: what stands above it, what its finished nodes add up to, and the places of the others. No finished
/// node is held.
#[derive(Drop)]
pub struct Descent<N> {
    /// What stands above the tree.
    pub known: Known<N>,
    /// What the finished nodes add up to.
    pub sum: Sum,
    /// The places of the nodes that are not finished.
    pub places: Places,
}
