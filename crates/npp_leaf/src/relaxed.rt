//! The work on the relaxation of a family.

ghost use Rattle.std.specs.Prelude.{◌≡◌, ◌≤◌, length, map, All, IfOk};
ghost use Rattle.npp_frac.specs.Fits.{limit_of};
ghost use Rattle.npp_rows.specs.Cuts.{IsCut};
ghost use Rattle.npp_rows.specs.Meaning.{cut_value};
ghost use Rattle.npp_rows.specs.Named.{numbered};
ghost use Rattle.npp_rows.specs.Relax.{relaxation};
ghost use Rattle.npp_inverse.specs.Work.{IsProvedEnding};
ghost use Rattle.npp_inverse.specs.Tolls.{ending_of};
ghost use Rattle.npp_leaf.specs.Found.{found_value, relaxation_found};
ghost use Rattle.npp_leaf.specs.Work.{family_work};

use crate::point::point_of;
use crate::positive::positive_multipliers;
use crate::work::LeafWork;
use npp_frac::Exact;
use npp_inverse::{Work, Workspace, work_on_in};
use npp_net::{Listed, Memory};
use npp_rows::{CutRow, Mark, RelaxationIndex, RowName};
use npp_tree::{Bound, Evidence};
use std::alloc::Global;

/// What the work on the relaxation of a family with some cuts finds.
pub(crate) fn family_work<N: Exact>(
    alloc: Global,
    workspace: &mut Workspace<N>,
    index: &RelaxationIndex,
    cuts: &[CutRow<N>],
) -> Result<LeafWork<N>, Memory>
    requires cuts { All (λ c. IsCut index.now.paths (cut_value N.rational c)) cuts.now }
    requires few { length cuts.now ≤ 16777216 }
    ensures { IfOk result (λ w. found_value N.rational w
        ≡ family_work (limit_of N.WIDTH) index.now.paths index.now.parts (map (cut_value N.rational) cuts.now)) }
{
    if index.is_large(cuts) {
        return Ok(LeafWork::marked(Mark::Large));
    }
    let program = index.program(alloc, &mut workspace.programs, cuts)?;
    let work = work_on_in(alloc, workspace, &program)?;
    workspace.programs.keep(program);
    found_by(alloc, index, cuts, workspace.programs.rows(), work)
}

/// What is found where the work on the relaxation with some cuts ends so. The rows are those of the relaxation.
fn found_by<N: Exact>(
    alloc: Global,
    index: &RelaxationIndex,
    cuts: &[CutRow<N>],
    rows: &[RowName],
    work: Work<N>,
) -> Result<LeafWork<N>, Memory>
    requires rows { rows.now ≡ (relaxation index.now.paths index.now.parts (map (cut_value N.rational) cuts.now)).rows }
    requires proved { IsProvedEnding (numbered (relaxation index.now.paths index.now.parts (map (cut_value N.rational) cuts.now))) (ending_of N.rational work) }
    ensures { IfOk result (λ w. found_value N.rational w
        ≡ relaxation_found index.now.paths index.now.parts (relaxation index.now.paths index.now.parts (map (cut_value N.rational) cuts.now)).rows (ending_of N.rational work)) }
{
    match work {
        Work::Solved { x, y, value } => {
            let multipliers = positive_multipliers(alloc, rows, &y)?;
            let point = point_of(alloc, index, &x)?;
            Ok(LeafWork {
                evidence: Evidence::Dual(Listed::of(multipliers)),
                value: Some(Bound::At(value.widen())),
                point: Some(point),
                best: None,
            })
        }
        Work::NoPoint { y } => {
            let multipliers = positive_multipliers(alloc, rows, &y)?;
            Ok(LeafWork::without_point(Evidence::Farkas(Listed::of(multipliers))))
        }
        Work::Loud(mark) => Ok(LeafWork::marked(mark)),
    }
}
