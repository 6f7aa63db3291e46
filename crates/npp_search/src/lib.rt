//! Branch and bound over the choices of useful paths.
#![tactic(auto)]

mod branch;
mod children;
mod division;
mod from;
mod grown;
mod listed;
mod offer;
mod opening;
mod order;
mod outcome;
mod picker;
mod ranked;
mod ranking;
mod setting;
mod state;
mod turn;
mod waiting;

pub use from::search_from;
pub use grown::Grown;
pub use outcome::search;
pub use picker::{BestBound, Depth, NodeOrder, OpenNode, Picker};
