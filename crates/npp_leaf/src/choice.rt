//! The work on a full choice.

ghost use Rattle.std.specs.Prelude.{◌≡◌, IfOk};
ghost use Rattle.npp_frac.specs.Fits.{limit_of};
ghost use Rattle.npp_rows.specs.Inverse.{inverse};
ghost use Rattle.npp_rows.specs.Rows.{IsChoice};
ghost use Rattle.npp_inverse.specs.Offers.{HasUsefulPaths};
ghost use Rattle.npp_inverse.specs.Best.{best_ending, IsProvedBest};
ghost use Rattle.npp_leaf.specs.Found.{found_value, choice_found};
ghost use Rattle.npp_leaf.specs.Work.{choice_work};

use crate::positive::positive_multipliers;
use crate::work::LeafWork;
use npp_frac::Exact;
use npp_inverse::{Best, Workspace, best_tolls_in};
use npp_net::{Listed, Memory};
use npp_rows::{PathTable, RowName};
use npp_tree::{Bound, Evidence};
use std::alloc::Global;

/// What the work on a full choice finds.
pub(crate) fn choice_work<N: Exact>(
    alloc: Global,
    workspace: &mut Workspace<N>,
    table: &PathTable,
    choice: &[u32],
) -> Result<LeafWork<N>, Memory>
    requires choice { IsChoice table.now choice.now }
    requires useful { HasUsefulPaths table.now }
    ensures { IfOk result (λ w. found_value N.rational w ≡ choice_work (limit_of N.WIDTH) table.now choice.now) }
{
    let best = best_tolls_in(alloc, workspace, table, choice)?;
    found_by(alloc, table, choice, workspace.programs.rows(), best)
}

/// What is found where the best tolls of the choice are these. The rows are those of its program.
fn found_by<N: Exact>(
    alloc: Global,
    table: &PathTable,
    choice: &[u32],
    rows: &[RowName],
    best: Best<N>,
) -> Result<LeafWork<N>, Memory>
    requires rows { rows.now ≡ (inverse table.now choice.now).rows }
    requires proved { IsProvedBest N.rational table.now choice.now best }
    ensures { IfOk result (λ w. found_value N.rational w ≡ choice_found table.now (inverse table.now choice.now).rows (best_ending N.rational best)) }
{
    match best {
        Best::Found {
            tolls,
            value,
            y,
            response,
        } => {
            let multipliers = positive_multipliers(alloc, rows, &y)?;
            Ok(LeafWork {
                evidence: Evidence::Inverse(Listed::of(multipliers)),
                value: Some(Bound::At(value.widen())),
                point: None,
                best: Some((tolls, response)),
            })
        }
        Best::NoTolls { y } => {
            let multipliers = positive_multipliers(alloc, rows, &y)?;
            Ok(LeafWork::without_point(Evidence::NoInverse(Listed::of(multipliers))))
        }
        Best::Loud(mark) => Ok(LeafWork::marked(mark)),
    }
}
