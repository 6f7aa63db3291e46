//! What a search is asked.

use npp_cover::Cover;
use npp_frac::Frac128;
use npp_net::Instance;
use npp_rows::{Allowed, PathTable};
use npp_tree::Bound;
use std::alloc::Global;

/// What a search is asked: to open at most so many nodes below allowed paths and a bound, and to find more than a lower
/// value.
#[derive(Drop)]
pub(crate) struct Setting<'t> {
    pub(crate) alloc: Global,
    pub(crate) instance: &'t Instance,
    pub(crate) covers: &'t [Cover],
    /// The useful paths of the covers.
    pub(crate) table: PathTable<'t>,
    /// What the root allows.
    pub(crate) allowed: &'t Allowed,
    /// What no outcome of the root exceeds.
    pub(crate) bound: Bound,
    pub(crate) lower: Frac128,
    pub(crate) budget: u32,
}
