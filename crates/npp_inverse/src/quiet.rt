//! The exact work on a program at a width: it is quiet where every number fits, and else it has a mark.

ghost use Rattle.std.specs.Prelude.{◌≡◌, length, map, List, IfOk};
ghost use Rattle.npp_frac.specs.Rational.{Rational};
ghost use Rattle.npp_frac.specs.Fits.{limit_of};
ghost use Rattle.npp_lp.specs.Programs.{IsRay};
ghost use Rattle.npp_lp.specs.Duals.{IsDualAnswer, IsFarkasAnswer, right_value};
ghost use Rattle.npp_lp.specs.Meaning.{linear_program};
ghost use Rattle.npp_simplex.specs.Proved.{IsProved};
ghost use Rattle.npp_simplex.specs.Meaning.{outcome_of};
ghost use Rattle.npp_inverse.specs.Work.{step_as, sums_fit, judged, program_work, IsProvedEnding};
ghost use Rattle.npp_inverse.specs.Tolls.{ending_of};

use crate::workspace::Workspace;
use npp_frac::Exact;
use npp_lp::{Program, check_dual, check_farkas};
use npp_net::Memory;
use npp_rows::{Mark, Step};
use npp_simplex::{Answer, solve_in};
use std::alloc::Global;

/// How many pivots a run may have.
const PIVOTS: u32 = 100_000;

/// How the exact work on a program ends.
#[derive(Debug, Drop)]
pub enum Work<N> {
    /// The program is quiet and has a point.
    Solved {
        /// The number of each column: a point with the greatest goal.
        x: Vec<N>,
        /// The multiplier of each row: a dual answer, whose check fits the width.
        y: Vec<N>,
        /// The goal at the point, which is the value of the dual answer.
        value: N,
    },
    /// The program is quiet and has no point.
    NoPoint {
        /// The multiplier of each row: a Farkas answer, whose check fits the width.
        y: Vec<N>,
    },
    /// The program is not quiet.
    Loud(Mark),
}

/// The step of a pivot, in the terms of `npp_rows`.
pub fn step_of(step: npp_simplex::Step) -> Step
    ensures { result ≡ step_as step }
{
    match step {
        npp_simplex::Step::Ratio => Step::Ratio,
        npp_simplex::Step::Pivot => Step::Pivot,
    }
}

/// Whether the sums of the check of a dual answer fit.
fn dual_fits<N: Exact>(program: &Program<N>, y: &[N]) -> bool
    requires size { length y.now ≡ length program.now.rows }
    requires answer { IsDualAnswer (linear_program N.rational program.now) (map N.rational y.now) (right_value (linear_program N.rational program.now) (map N.rational y.now)) }
    ensures { result ≡ sums_fit (limit_of N.WIDTH) (linear_program N.rational program.now) (map N.rational y.now) }
{
    check_dual(program, y).is_ok()
}

/// Whether the sums of the check of a Farkas answer fit.
fn farkas_fits<N: Exact>(program: &Program<N>, y: &[N]) -> bool
    requires size { length y.now ≡ length program.now.rows }
    requires answer { IsFarkasAnswer (linear_program N.rational program.now) (map N.rational y.now) }
    ensures { result ≡ sums_fit (limit_of N.WIDTH) (linear_program N.rational program.now) (map N.rational y.now) }
{
    check_farkas(program, y).is_ok()
}

/// What the answer of a run gives, where the program has no ray.
fn judge<N: Exact>(program: &Program<N>, answer: Answer<N>) -> Work<N>
    requires bounded { (d : List Rational) → IsRay (linear_program N.rational program.now) d → ⊥ }
    requires proved { IsProved (linear_program N.rational program.now) (outcome_of N.rational answer) }
    ensures ending { ending_of N.rational result ≡ judged (limit_of N.WIDTH) (linear_program N.rational program.now) (outcome_of N.rational answer) }
    ensures proved { IsProvedEnding (linear_program N.rational program.now) (ending_of N.rational result) }
{
    match answer {
        Answer::Optimal { x, y, value, .. } => {
            if dual_fits(program, &y) {
                Work::Solved { x, y, value }
            } else {
                Work::Loud(Mark::Sum)
            }
        }
        Answer::Infeasible { y, .. } => {
            if farkas_fits(program, &y) {
                Work::NoPoint { y }
            } else {
                Work::Loud(Mark::Sum)
            }
        }
        Answer::Unbounded { .. } => unreachable!(),
        Answer::Overflow { pivot, place } => Work::Loud(Mark::Overflow {
            pivot,
            step: step_of(place.step),
            row: place.row,
            column: place.column,
        }),
        Answer::Capped => Work::Loud(Mark::Capped),
    }
}

/// The work on a program that has no ray: its run, and the sums of the check of its answer.
///
/// A program is quiet at the width of `N` where each number of the run fits, there are at most 100,000 pivots, and the
/// sums of the check of the multipliers fit. Else it has the mark of the first of these that fails. The run takes its memory
/// from the workspace and leaves it there.
#[tactic(auto, unfolding(crate::specs::Work::program_work))]
pub fn work_on_in<N: Exact>(
    alloc: Global,
    workspace: &mut Workspace<N>,
    program: &Program<N>,
) -> Result<Work<N>, Memory>
    requires bounded { (d : List Rational) → IsRay (linear_program N.rational program.now) d → ⊥ }
    ensures ending { IfOk result (λ w. ending_of N.rational w ≡ program_work (limit_of N.WIDTH) (linear_program N.rational program.now)) }
    ensures proved { IfOk result (λ w. IsProvedEnding (linear_program N.rational program.now) (ending_of N.rational w)) }
    ensures rows { workspace.new.programs ≡ workspace.old.programs }
{
    match solve_in(alloc, &mut workspace.runs, program, PIVOTS) {
        Ok(answer) => Ok(judge(program, answer)),
        Err(_) => Err(Memory),
    }
}

/// The work on a program that has no ray, in a workspace of its own: see [`work_on_in`].
pub fn work_on<N: Exact>(alloc: Global, program: &Program<N>) -> Result<Work<N>, Memory>
    requires bounded { (d : List Rational) → IsRay (linear_program N.rational program.now) d → ⊥ }
    ensures ending { IfOk result (λ w. ending_of N.rational w ≡ program_work (limit_of N.WIDTH) (linear_program N.rational program.now)) }
    ensures proved { IfOk result (λ w. IsProvedEnding (linear_program N.rational program.now) (ending_of N.rational w)) }
{
    let mut workspace = Workspace::new(alloc);
    work_on_in(alloc, &mut workspace, program)
}
