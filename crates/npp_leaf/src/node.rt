//! The evidence of a node.

ghost use Rattle.std.specs.Prelude.{◌≡◌, ◌≤◌, length, map, option_map, All, IfOk, IfSome};
ghost use Rattle.npp_frac.specs.Fits.{limit_of};
ghost use Rattle.npp_rows.specs.Caps.{path_model};
ghost use Rattle.npp_rows.specs.Limits.{path_total};
ghost use Rattle.npp_rows.specs.Lowering.{AreClosedCovers};
ghost use Rattle.npp_rows.specs.Parts.{IsAllowed};
ghost use Rattle.npp_rows.specs.Cuts.{IsCut};
ghost use Rattle.npp_rows.specs.Meaning.{cut_value};
ghost use Rattle.npp_rows.specs.Named.{numbered};
ghost use Rattle.npp_rows.specs.NodeProgram.{node_program};
ghost use Rattle.npp_inverse.specs.Offers.{HasUsefulPaths};
ghost use Rattle.npp_tree.specs.Bounds.{bound_value};
ghost use Rattle.npp_tree.specs.Evidence.{evidence_value};
ghost use Rattle.npp_leaf.specs.Found.{found_value};
ghost use Rattle.npp_leaf.specs.Work.{leaf_work};
ghost use Rattle.npp_leaf.specs.Passes.{Passes, IsOptimal, BoundsWithCuts};
ghost use Rattle.npp_leaf.specs.FoundTolls.{FindsTolls};

use crate::choice::choice_work;
use crate::relaxed::family_work;
use crate::work::LeafWork;
use npp_cover::Cover;
use npp_frac::Exact;
use npp_inverse::Workspace;
use npp_net::{Instance, Memory};
use npp_rows::{Allowed, CutRow, PathTable, RelaxationIndex, first_choice, is_full};
use std::alloc::Global;

/// The evidence of a node that allows these paths.
///
/// A full choice, which allows one path for each commodity, is worked on by its best tolls: its evidence is Inverse, or
/// NoInverse where no tolls make its paths cheapest. Any other family is worked on by its relaxation with the cuts: its
/// evidence is Dual, or Farkas where the relaxation has no point. Where the program is not quiet at the width of `N`, the
/// evidence is the mark of what does not fit first, and where a relaxation has over 1,000,000 rows times columns, `Large`.
///
/// The value of Dual and Inverse is the optimum, and that of Farkas and NoInverse is Empty. The terms of each cut name useful
/// paths, by rising commodity and path. The table and the workspace, which keeps the memory of the programs and their runs,
/// are made once for all nodes of an instance; [`evidence`] makes its own.
pub fn evidence_in<'a, N: Exact>(
    alloc: Global,
    workspace: &mut Workspace<N>,
    table: &'a PathTable<'a>,
    allowed: &'a Allowed,
    cuts: &[CutRow<N>],
) -> Result<LeafWork<N>, Memory>
    requires useful { HasUsefulPaths table.now }
    requires allowed { IsAllowed table.now allowed.now.parts }
    requires cuts { All (λ c. IsCut table.now (cut_value N.rational c)) cuts.now }
    requires few_cuts { length cuts.now ≤ 16777216 }
    ensures work { IfOk result (λ w. found_value N.rational w
        ≡ leaf_work (limit_of N.WIDTH) table.now allowed.now.parts (map (cut_value N.rational) cuts.now)) }

    // The checker takes it as a block of a node with these paths.
    ensures passes { IfOk result (λ w. Passes (limit_of N.WIDTH)
        (node_program table.now (map (cut_value N.rational) cuts.now) allowed.now.parts)
        (evidence_value N.rational w.evidence) (option_map bound_value w.value)) }
    ensures optimum { IfOk result (λ w. IfSome (option_map bound_value w.value)
        (IsOptimal (numbered (node_program table.now (map (cut_value N.rational) cuts.now) allowed.now.parts)))) }
    ensures tolls { IfOk result (λ w. FindsTolls table.now (found_value N.rational w)) }
{
    let parts = allowed.parts.entries();
    if is_full(parts) {
        let choice = first_choice(alloc, parts)?;
        return choice_work(alloc, workspace, table, &choice);
    }
    let index = RelaxationIndex::new(alloc, table, allowed)?;
    family_work(alloc, workspace, &index, cuts)
}

/// The evidence of a node that allows these paths, in a workspace of its own: see [`evidence_in`].
pub fn evidence_for<'a, N: Exact>(
    alloc: Global,
    table: &'a PathTable<'a>,
    allowed: &'a Allowed,
    cuts: &[CutRow<N>],
) -> Result<LeafWork<N>, Memory>
    requires useful { HasUsefulPaths table.now }
    requires allowed { IsAllowed table.now allowed.now.parts }
    requires cuts { All (λ c. IsCut table.now (cut_value N.rational c)) cuts.now }
    requires few_cuts { length cuts.now ≤ 16777216 }
    ensures work { IfOk result (λ w. found_value N.rational w
        ≡ leaf_work (limit_of N.WIDTH) table.now allowed.now.parts (map (cut_value N.rational) cuts.now)) }

    // The checker takes it as a block of a node with these paths.
    ensures passes { IfOk result (λ w. Passes (limit_of N.WIDTH)
        (node_program table.now (map (cut_value N.rational) cuts.now) allowed.now.parts)
        (evidence_value N.rational w.evidence) (option_map bound_value w.value)) }
    ensures optimum { IfOk result (λ w. IfSome (option_map bound_value w.value)
        (IsOptimal (numbered (node_program table.now (map (cut_value N.rational) cuts.now) allowed.now.parts)))) }
    ensures tolls { IfOk result (λ w. FindsTolls table.now (found_value N.rational w)) }
{
    let mut workspace = Workspace::new(alloc);
    evidence_in(alloc, &mut workspace, table, allowed, cuts)
}

/// The evidence of a node of an instance: see [`evidence_in`].
///
/// Where every outcome meets the cuts, no outcome in which the commodities take allowed paths at tolls up to the caps earns
/// more than the value, and where the value is Empty there is no such outcome. The covers are those of the instance, one
/// for each commodity in order.
pub fn evidence<N: Exact>(
    alloc: Global,
    instance: &Instance,
    covers: &[Cover],
    allowed: &Allowed,
    cuts: &[CutRow<N>],
) -> Result<LeafWork<N>, Memory>
    requires covers { AreClosedCovers instance.now covers.now }
    requires few { path_total covers.now ≤ 16777216 }
    requires allowed { IsAllowed (path_model instance.now covers.now) allowed.now.parts }
    requires cuts { All (λ c. IsCut (path_model instance.now covers.now) (cut_value N.rational c)) cuts.now }
    requires few_cuts { length cuts.now ≤ 16777216 }
    ensures work { IfOk result (λ w. found_value N.rational w
        ≡ leaf_work (limit_of N.WIDTH) (path_model instance.now covers.now) allowed.now.parts (map (cut_value N.rational) cuts.now)) }

    // The checker takes it as a block of a node with these paths.
    ensures passes { IfOk result (λ w. Passes (limit_of N.WIDTH)
        (node_program (path_model instance.now covers.now) (map (cut_value N.rational) cuts.now) allowed.now.parts)
        (evidence_value N.rational w.evidence) (option_map bound_value w.value)) }
    ensures optimum { IfOk result (λ w. IfSome (option_map bound_value w.value)
        (IsOptimal (numbered (node_program (path_model instance.now covers.now) (map (cut_value N.rational) cuts.now) allowed.now.parts)))) }
    ensures bounds { IfOk result (λ w. BoundsWithCuts instance.now (path_model instance.now covers.now)
        (map (cut_value N.rational) cuts.now) allowed.now.parts (option_map bound_value w.value)) }
    ensures tolls { IfOk result (λ w. FindsTolls (path_model instance.now covers.now) (found_value N.rational w)) }
{
    let table = PathTable::new(alloc, instance, covers)?;
    evidence_for(alloc, &table, allowed, cuts)
}
