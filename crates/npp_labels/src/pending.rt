//! Labels that wait to be taken.

use npp_cover::Label;

/// The extension of a label by the first of its needed arcs that were not tried yet. The one to be taken first has the least cost onward to the destination; of those
/// the fewest tolls, the least cost, the lowest node, the lowest number of its set, and then the one found first.
#[derive(Clone, Copy, Debug, PartialEq, Eq, PartialOrd, Ord)]
pub struct Pending {
    /// Its cost and the least cost onward from its node, together.
    pub bound: u64,
    /// How many tolls it has.
    pub size: u32,
    /// Its cost.
    pub cost: u64,
    /// The number of its node.
    pub node: u32,
    /// The number of its set of tolls.
    pub set: u128,
    /// The number of the label that it extends.
    pub parent: u32,
    /// The number of the arc by which it does.
    pub arc: u32,
    /// How many needed arcs of that label were not tried yet, this one included.
    pub left: usize,
}

/// One that waited and was taken.
#[derive(Clone, Copy)]
pub struct Taken {
    /// As it waited.
    pub waited: Pending,
    /// As a label.
    pub label: Label,
}
