//! What a search gives.

use crate::node::CertTree;
use npp_frac::Frac128;
use npp_net::{ArcId, Listed, Tolls};
use npp_rows::Derivation;

/// How a search ended.
#[derive(Clone, Copy, Debug, PartialEq, Eq)]
pub enum Status {
    /// The lower and the upper value are equal.
    Optimal,
    /// As many nodes were opened as were allowed.
    Budget,
    /// Every leaf above the lower value is a full choice whose program has no answer at the width.
    Overflow,
}

/// The walk of a commodity.
#[derive(Debug, Drop)]
pub struct PathLine<N> {
    /// Its cost, each arc as often as it stands.
    pub cost: u64,
    /// The toll that it pays, each arc as often as it stands.
    pub paid: N,
    /// Its arcs in the order of travel.
    pub arcs: Listed<ArcId>,
}

/// Tolls and walks that earn the lower value, and a tree that proves the upper value.
#[derive(Debug, Drop)]
pub struct Outcome<N> {
    /// How the search ended.
    pub status: Status,
    /// What the tolls and walks earn.
    pub lower: Frac128,
    /// What no outcome exceeds: the bound of the tree.
    pub upper: Frac128,
    /// How many nodes were opened.
    pub opened: u32,
    /// The tolls.
    pub tolls: Tolls<N>,
    /// A walk for each commodity, in order.
    pub paths: Listed<PathLine<N>>,
    /// The cuts, each derived after those before it.
    pub cuts: Listed<Derivation<N>>,
    /// The tree.
    pub tree: CertTree<N>,
}

/// What an accepted certificate proves.
#[derive(Clone, Copy, Debug)]
pub struct Pair {
    /// A revenue that is earned.
    pub lower: Frac128,
    /// A revenue that no outcome exceeds.
    pub upper: Frac128,
}
