//! The useful labels of a commodity, by a best-first search, as a cover, and the covers of all commodities, in order.
#![tactic(auto)]

mod best_first;
mod commodity;
mod covers;
mod family;
mod pending;
mod queue;
mod refusal;
mod steps;

pub use commodity::useful;
pub use covers::{CoversRefusal, useful_all};
pub use refusal::LabelRefusal;
