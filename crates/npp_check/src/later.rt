//! What a split keeps of a family until its second child begins.

use npp_net::Listed;
use npp_tree::Bound;

/// What a commodity was allowed before a change.
#[derive(Drop)]
pub struct Change {
    /// The commodity.
    pub commodity: u32,
    /// The paths that it was allowed.
    pub part: Listed<u32>,
}

/// A second child that is still to come. Its family is that of its parent but for one commodity.
#[derive(Drop)]
pub struct Later {
    /// The commodity that its parent is split on.
    pub commodity: u32,
    /// The paths that the parent allows it.
    pub whole: Listed<u32>,
    /// Those that the second child allows it.
    pub rest: Listed<u32>,
    /// The bound of the parent.
    pub parent: Bound,
    /// What was changed in the family since the first child began.
    pub changes: Vec<Change>,
}
