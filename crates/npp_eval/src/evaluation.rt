//! What tolls earn.

use npp_net::Listed;
use npp_tree::PathLine;

/// What given tolls earn, and the walk that each commodity takes under them.
#[derive(Debug, Drop)]
pub struct Evaluation<N> {
    /// The sum of demand times toll paid: the most that cheapest walks earn under these tolls.
    pub revenue: N,
    /// The walk of each commodity with what it costs and what it pays, by the number of the commodity.
    pub paths: Listed<PathLine<N>>,
}
