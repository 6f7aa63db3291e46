//! Covers: finite lists of labels and paths that stand for all walks of a commodity. A closed cover has, for each walk, a
//! path that costs no more and uses each toll no more often; and for each walk that is cheapest under some tolls, a path
//! that is cheapest too and pays the same.
#![tactic(auto)]

mod blocks;
mod check;
mod closed;
mod commodity;
mod cover;
mod dominance;
mod extend;
mod fault;
mod free;
mod growing;
mod label;
mod needed;
mod path;
mod paths;
mod rank;
mod steps;

pub use check::check_cover;
pub use cover::{Cover, CoverPlan};
pub use dominance::DominanceTable;
pub use extend::{can_win, has_arc, label_after};
pub use fault::CoverFault;
pub use growing::GrowingDraft;
pub use label::{CoverDraft, Label, StepDraft};
pub use needed::{NeededArc, NeededArcs};
pub use path::UsefulPath;
