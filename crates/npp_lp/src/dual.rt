//! The check of a dual answer.

ghost use Rattle.std.specs.Prelude.{◌≡◌, length, map, IfOk};
ghost use Rattle.npp_frac.specs.Fits.{limit_of};
ghost use Rattle.npp_lp.specs.Programs.{IsProgramBound};
ghost use Rattle.npp_lp.specs.Duals.{IsDualAnswer};
ghost use Rattle.npp_lp.specs.DualVerdict.{dual_verdict};
ghost use Rattle.npp_lp.specs.Meaning.{linear_program, dual_result};

use crate::faults::DualFault;
use crate::numbers::first_negative;
use crate::program::Program;
use crate::sums::{column_sum, product_sum};
use npp_frac::{Exact, is_below};

/// The value `right * y` of a dual answer, or why the multipliers `y` are none.
///
/// A dual answer has a multiplier for each row, none below 0, such that the sum of each column is at least its goal. No
/// point has a goal above its value. The multipliers are judged first, then each column, and last the value is formed;
/// the first fault in that order is answered. A sum begins at 0 and goes in row order, each coefficient times its
/// multiplier; where an operation does not fit the width, the sum is an `Overflow` at the place where it would be judged.
///
/// It takes no memory. A multiplier that is 0 costs one comparison for each column, any other a search in its row.
pub fn check_dual<N: Exact>(program: &Program<N>, y: &[N]) -> Result<N, DualFault<N>>
    requires { length y.now ≡ length program.now.rows }
    ensures verdict { dual_result N.rational result
        ≡ dual_verdict (limit_of N.WIDTH) (linear_program N.rational program.now) (map N.rational y.now) }
    ensures answer { IfOk result (λ v.
        IsDualAnswer (linear_program N.rational program.now) (map N.rational y.now) (N.rational v)) }
    ensures bound { IfOk result (λ v. IsProgramBound (linear_program N.rational program.now) (N.rational v)) }
{
    let columns = program.columns();
    if let Some(row) = first_negative(y) {
        return Err(DualFault::NegativeRow(row));
    }
    for column in 0..columns {
        let sum = column_sum(program, y, column)?;
        if is_below(sum, program.goal()[column as usize]) {
            return Err(DualFault::Column(column));
        }
    }
    let value = product_sum(program.right(), y)?;
    Ok(value)
}
