//! The paths of a cover.

use npp_net::{TollSet, Walk};

/// A path of a commodity that some tolls may make cheapest: a walk from its origin to its destination.
#[derive(Debug, PartialEq, Eq, Drop)]
pub struct UsefulPath {
    /// The toll arcs of the walk, each of which it uses once.
    pub tolls: TollSet,
    /// The sum of the costs of its arcs, without tolls.
    pub cost: u64,
    /// The walk.
    pub walk: Walk,
}
