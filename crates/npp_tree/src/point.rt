//! Points of a relaxation.

use npp_net::Listed;

/// A point of the relaxation of a node.
#[derive(Debug, Drop)]
pub struct Point<N> {
    /// The tolls, by toll number.
    pub tolls: Listed<N>,
    /// For each commodity the shares of its allowed paths, in the order of its part.
    pub shares: Listed<Listed<N>>,
}
