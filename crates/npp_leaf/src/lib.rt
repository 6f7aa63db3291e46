//! The evidence of a node: what the exact work on its program proves of the outcomes that take its paths.
#![tactic(auto)]

mod choice;
mod node;
mod point;
mod positive;
mod relaxed;
mod work;

pub use node::{evidence, evidence_for, evidence_in};
pub use npp_inverse::Workspace;
pub use work::LeafWork;
