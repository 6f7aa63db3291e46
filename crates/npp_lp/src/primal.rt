//! The check of a point.

ghost use Rattle.std.specs.Prelude.{◌≡◌, length, map, IfOk, OnOk};
ghost use Rattle.npp_frac.specs.Fits.{limit_of};
ghost use Rattle.npp_lp.specs.Programs.{IsPoint, goal_at};
ghost use Rattle.npp_lp.specs.PrimalVerdict.{primal_verdict};
ghost use Rattle.npp_lp.specs.Meaning.{linear_program, primal_result};

use crate::faults::PrimalFault;
use crate::numbers::first_negative;
use crate::program::Program;
use crate::sums::{product_sum, row_sum};
use npp_frac::{Exact, is_below};

/// The goal `goal * x` of a point, or why the vector `x` is no point.
///
/// A point has a number for each column, none below 0, such that the sum of each row is at most its right side. The
/// numbers are judged first, then each row, and last the goal is formed; the first fault in that order is answered. A sum
/// begins at 0 and goes in column order, each coefficient times its number; where an operation does not fit the width,
/// the sum is an `Overflow` at the place where it would be judged.
///
/// It takes no memory.
pub fn check_primal<N: Exact>(program: &Program<N>, x: &[N]) -> Result<N, PrimalFault<N>>
    requires { length x.now ≡ program.now.columns }
    ensures verdict { primal_result N.rational result
        ≡ primal_verdict (limit_of N.WIDTH) (linear_program N.rational program.now) (map N.rational x.now) }
    ensures point { OnOk result (IsPoint (linear_program N.rational program.now) (map N.rational x.now)) }
    ensures goal { IfOk result (λ v.
        goal_at (linear_program N.rational program.now) (map N.rational x.now) ≡ N.rational v) }
{
    let rows = program.row_count();
    if let Some(column) = first_negative(x) {
        return Err(PrimalFault::NegativeColumn(column));
    }
    for row in 0..rows {
        let sum = row_sum(program.row(row), x)?;
        if is_below(program.right()[row], sum) {
            return Err(PrimalFault::Row(row as u32));
        }
    }
    let goal = product_sum(program.goal(), x)?;
    Ok(goal)
}
