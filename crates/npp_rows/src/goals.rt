//! The goals of programs, as vectors.

ghost use Rattle.std.specs.Prelude.{◌≡◌, map, IfOk};
ghost use Rattle.npp_rows.specs.Relax.{relaxation_columns, paid_goal};
ghost use Rattle.npp_rows.specs.Inverse.{inverse};
ghost use Rattle.npp_rows.specs.Rows.{IsChoice};

use crate::choice::choice_goal;
use crate::index::RelaxationIndex;
use crate::relaxed::goal_of;
use crate::table::PathTable;
use npp_frac::Exact;
use npp_net::Memory;
use std::alloc::Global;

impl RelaxationIndex<'_> {
    /// The goal of the relaxation: the demand of the commodity at each column of what it pays, and else 0.
    pub fn goal<N: Exact>(&self, alloc: Global) -> Result<Vec<N>, Memory>
        ensures { IfOk result (λ v. map N.rational v.items ≡ map (paid_goal self.now.paths) (relaxation_columns self.now.paths self.now.parts)) }
    {
        goal_of(Vec::new(alloc), self)
    }
}

impl PathTable<'_> {
    /// The goal of the inverse program of a choice: how many travellers pay each toll.
    pub fn choice_goal<N: Exact>(&self, alloc: Global, choice: &[u32]) -> Result<Vec<N>, Memory>
        requires { IsChoice self.now choice.now }
        ensures { IfOk result (λ v. map N.rational v.items ≡ map (inverse self.now choice.now).goal (inverse self.now choice.now).columns) }
    {
        choice_goal(Vec::new(alloc), self, choice)
    }
}
