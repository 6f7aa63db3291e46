//! The order of the paths of a cover.

/// Where a label at the destination stands among the paths: by its cost, then by how many tolls it has, then by the
/// number of its set of tolls, and last by its own number.
#[derive(Clone, Copy, Debug, PartialEq, Eq, PartialOrd, Ord)]
pub struct Rank {
    /// The cost of the label.
    pub cost: u64,
    /// How many tolls the label has.
    pub size: u32,
    /// The number of its set of tolls.
    pub set: u128,
    /// The number of the label.
    pub label: u32,
}
