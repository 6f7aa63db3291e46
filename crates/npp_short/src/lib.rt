//! Shortest walks in a network: the least cost from each node to one destination, and walks that have it.
#![tactic(auto)]

mod distances;
mod potentials;
mod queue;
mod reach;
mod walk;

pub use distances::distances_to;
pub use potentials::Potentials;
pub use walk::walk_from;
