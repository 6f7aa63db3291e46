//! The best tolls under which chosen paths are cheapest.

ghost use Rattle.std.specs.Prelude.{◌≡◌, ◌≤◌, length, map, IfOk, OnOk};
ghost use Rattle.npp_frac.specs.Fits.{limit_of};
ghost use Rattle.npp_net.specs.Network.{Network};
ghost use Rattle.npp_rows.specs.Caps.{path_model};
ghost use Rattle.npp_rows.specs.Limits.{path_total};
ghost use Rattle.npp_rows.specs.Lowering.{AreClosedCovers};
ghost use Rattle.npp_rows.specs.Promises.{IsModelOf};
ghost use Rattle.npp_rows.specs.Inverse.{inverse};
ghost use Rattle.npp_rows.specs.Rows.{IsChoice};
ghost use Rattle.npp_inverse.specs.Offers.{HasUsefulPaths};
ghost use Rattle.npp_inverse.specs.Work.{inverse_work};
ghost use Rattle.npp_inverse.specs.Best.{best_ending, IsProvedBest, IsZeroChoice, LeavesTolls};

use crate::quiet::{Work, work_on_in};
use crate::refusal::RespondRefusal;
use crate::reply::reply_to;
use crate::workspace::Workspace;
use npp_cover::Cover;
use npp_frac::Exact;
use npp_net::{Instance, Memory, Tolls};
use npp_rows::{Mark, PathTable, Response};
use std::alloc::Global;

/// What the inverse program of a choice gives at a width.
#[derive(Debug, Drop)]
pub enum Best<N> {
    /// There are tolls under which each chosen path is cheapest.
    Found {
        /// The best such tolls, from 0 to their caps.
        tolls: Tolls<N>,
        /// What the chosen paths pay under them, each commodity by its demand: the optimum of the inverse program.
        value: N,
        /// The multiplier of each row: a dual answer of that value, whose check fits the width.
        y: Vec<N>,
        /// The reply to these tolls, which fits the width and earns at least the value.
        response: Response<N>,
    },
    /// There are no such tolls.
    NoTolls {
        /// The multiplier of each row: a Farkas answer, whose check fits the width.
        y: Vec<N>,
    },
    /// The inverse program is not quiet at the width.
    Loud(Mark),
}

/// The best tolls of a choice, which names one useful path for each commodity.
///
/// They are the point of the run of the inverse program. The program is quiet at the width of `N` where its run and the
/// sums of the check of its multipliers fit and, where it has a point, the reply to its tolls does too. Else it is `Loud`
/// with the mark of the first of these that fails; it is never `Loud(Large)`. The choice of path 0 of each commodity always
/// has tolls, since zero tolls will do. The program and its run take their memory from the workspace and leave it there, with
/// the names of the rows.
pub fn best_tolls_in<N: Exact>(
    alloc: Global,
    workspace: &mut Workspace<N>,
    table: &PathTable,
    choice: &[u32],
) -> Result<Best<N>, Memory>
    requires choice { IsChoice table.now choice.now }
    requires useful { HasUsefulPaths table.now }
    ensures work { IfOk result (λ b. best_ending N.rational b ≡ inverse_work (limit_of N.WIDTH) table.now choice.now) }
    ensures proved { IfOk result (λ b. IsProvedBest N.rational table.now choice.now b) }
    ensures zero_choice { (net : Network) → IsModelOf net table.now → IsZeroChoice choice.now → IfOk result LeavesTolls }
    ensures rows { OnOk result (workspace.new.programs ≡ (inverse table.now choice.now).rows) }
{
    let program = table.inverse(alloc, &mut workspace.programs, choice)?;
    let work = work_on_in(alloc, workspace, &program)?;
    workspace.programs.keep(program);
    match work {
        Work::Solved { x, y, value } => match reply_to(alloc, table, &x) {
            Ok(response) => Ok(Best::Found {
                tolls: Tolls::of(x),
                value,
                y,
                response,
            }),
            Err(RespondRefusal::Overflow { .. }) => Ok(Best::Loud(Mark::Sum)),
            Err(RespondRefusal::Memory) => Err(Memory),
        },
        Work::NoPoint { y } => Ok(Best::NoTolls { y }),
        Work::Loud(mark) => Ok(Best::Loud(mark)),
    }
}

/// The best tolls of a choice, which names one useful path for each commodity, in a workspace of their own: see
/// [`best_tolls_in`].
pub fn best_tolls_for<N: Exact>(
    alloc: Global,
    table: &PathTable,
    choice: &[u32],
) -> Result<Best<N>, Memory>
    requires choice { IsChoice table.now choice.now }
    requires useful { HasUsefulPaths table.now }
    ensures work { IfOk result (λ b. best_ending N.rational b ≡ inverse_work (limit_of N.WIDTH) table.now choice.now) }
    ensures proved { IfOk result (λ b. IsProvedBest N.rational table.now choice.now b) }
    ensures zero_choice { (net : Network) → IsModelOf net table.now → IsZeroChoice choice.now → IfOk result LeavesTolls }
{
    let mut workspace = Workspace::new(alloc);
    best_tolls_in(alloc, &mut workspace, table, choice)
}

/// The best tolls of a choice, which names one useful path for each commodity: see [`best_tolls_in`].
///
/// The covers are those of the instance, one for each commodity in order.
pub fn best_tolls<N: Exact>(
    alloc: Global,
    instance: &Instance,
    covers: &[Cover],
    choice: &[u32],
) -> Result<Best<N>, Memory>
    requires covers { AreClosedCovers instance.now covers.now }
    requires few { path_total covers.now ≤ 16777216 }
    requires choice { IsChoice (path_model instance.now covers.now) choice.now }
    ensures work { IfOk result (λ b. best_ending N.rational b ≡ inverse_work (limit_of N.WIDTH) (path_model instance.now covers.now) choice.now) }
    ensures proved { IfOk result (λ b. IsProvedBest N.rational (path_model instance.now covers.now) choice.now b) }
    ensures zero_choice { IsZeroChoice choice.now → IfOk result LeavesTolls }
{
    let table = PathTable::new(alloc, instance, covers)?;
    best_tolls_for(alloc, &table, choice)
}
