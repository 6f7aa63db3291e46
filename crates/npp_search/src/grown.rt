//! What a search from a node finds.

use npp_frac::Frac128;
use npp_net::Tolls;
use npp_rows::Response;
use npp_tree::CertTree;

/// What a search from a node finds.
#[derive(Debug, Drop)]
pub struct Grown<N> {
    /// How many nodes were opened.
    pub opened: u32,
    /// The tree.
    pub tree: CertTree<N>,
    /// The greatest value that is earned: the given one, or more.
    pub lower: Frac128,
    /// Tolls that earn it with the reply to them, exactly where it is more than was given.
    pub best: Option<(Tolls<N>, Response<N>)>,
}
