//! The whole run on a program.

ghost use Rattle.std.specs.Prelude.{◌≡◌, Some, IfOk};
ghost use Rattle.npp_frac.specs.Fits.{limit_of};
ghost use Rattle.npp_lp.specs.Meaning.{linear_program};
ghost use Rattle.npp_simplex.specs.Run.{run as run_of};
ghost use Rattle.npp_simplex.specs.Proved.{IsProved};
ghost use Rattle.npp_simplex.specs.Bases.{basis_count, HasFewerPivots};
ghost use Rattle.npp_simplex.specs.Meaning.{outcome_of};

use crate::answer::Answer;
use crate::run::{State, run};
use crate::workspace::Workspace;
use npp_frac::{Exact, Memory};
use npp_lp::Program;
use std::alloc::Global;

/// Runs the lexicographic simplex on a program, for at most `cap` pivots.
///
/// Phase one is entered where a right side is negative. The entering column is the least with a
/// positive reduced cost, and rows that tie in the ratio test are compared at the slack columns in turn.
/// The answer is that of the run over all rational numbers, up to the first number that does not fit. The memory of the
/// run is the workspace's, which keeps it for the next run; only the answer is allocated each time.
pub fn solve_in<N: Exact>(
    alloc: Global,
    workspace: &mut Workspace<N>,
    program: &Program<N>,
    cap: u32,
) -> Result<Answer<N>, Memory>
    ensures answer { IfOk result (λ a. outcome_of N.rational a ≡ run_of (Some (limit_of N.WIDTH)) cap (linear_program N.rational program.now)) }
    ensures proved { IfOk result (λ a. IsProved (linear_program N.rational program.now) (outcome_of N.rational a)) }
    ensures pivots { IfOk result (λ a. HasFewerPivots (basis_count (linear_program N.rational program.now)) cap (outcome_of N.rational a)) }
{
    let first = State::first(alloc, workspace, program)?;
    run(alloc, workspace, first, cap)
}

/// Runs the lexicographic simplex on a program, for at most `cap` pivots: see [`solve_in`]. The memory of the run is given back.
pub fn solve<N: Exact>(alloc: Global, program: &Program<N>, cap: u32) -> Result<Answer<N>, Memory>
    ensures answer { IfOk result (λ a. outcome_of N.rational a ≡ run_of (Some (limit_of N.WIDTH)) cap (linear_program N.rational program.now)) }
    ensures proved { IfOk result (λ a. IsProved (linear_program N.rational program.now) (outcome_of N.rational a)) }
    ensures pivots { IfOk result (λ a. HasFewerPivots (basis_count (linear_program N.rational program.now)) cap (outcome_of N.rational a)) }
{
    let mut workspace = Workspace::new(alloc);
    solve_in(alloc, &mut workspace, program, cap)
}
