//! Trees of branch and bound, what a search gives, and the lines of its certificate as items.
//!
//! A tree splits the outcomes of an instance by the paths that they take. The bound of a node is the least of its
//! parent's bound, of what the costs of its allowed paths leave, and of the value of its evidence; that of a tree is
//! the greatest bound of a leaf.
#![tactic(auto)]

mod bound;
mod grow;
mod item;
mod node;
mod outcome;
mod point;
#[cfg(test)]
mod tests;

pub use bound::{Bound, bound_of};
pub use grow::GrowTree;
pub use item::Item;
pub use node::{Branch, CertNode, CertTree, Evidence};
pub use outcome::{Outcome, Pair, PathLine, Status};
pub use point::Point;
