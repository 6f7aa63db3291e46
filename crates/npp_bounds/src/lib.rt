//! What each commodity can pay at most, and the basic bound: no tolls earn more than the sum of demand times the
//! difference between the least cost without toll arcs and the least cost with toll arcs at zero toll.
#![tactic(auto)]

mod basic;
mod least;
mod refusal;

pub use basic::basic_bound;
pub use least::{LeastCosts, free_and_zero, least_costs};
pub use refusal::BoundsRefusal;
