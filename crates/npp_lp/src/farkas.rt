//! The check of a Farkas answer.

ghost use Rattle.std.specs.Prelude.{◌≡◌, length, map, OnOk};
ghost use Rattle.npp_frac.specs.Fits.{limit_of};
ghost use Rattle.npp_lp.specs.Programs.{IsInfeasible};
ghost use Rattle.npp_lp.specs.Duals.{IsFarkasAnswer};
ghost use Rattle.npp_lp.specs.FarkasVerdict.{farkas_verdict};
ghost use Rattle.npp_lp.specs.Meaning.{linear_program, farkas_result};

use crate::faults::FarkasFault;
use crate::numbers::first_negative;
use crate::program::Program;
use crate::sums::{column_sum, product_sum};
use npp_frac::{Exact, is_negative};

/// Whether the multipliers `y` are a Farkas answer, or why they are none.
///
/// A Farkas answer has a multiplier for each row, none below 0, such that the sum of each column is at least 0 and the
/// sum of the right sides is below 0. A program that has one has no point. The goal plays no part. Sums are formed and
/// judged as in [`check_dual`](crate::check_dual).
///
/// It takes no memory. A multiplier that is 0 costs one comparison for each column, any other a search in its row.
pub fn check_farkas<N: Exact>(program: &Program<N>, y: &[N]) -> Result<(), FarkasFault<N>>
    requires { length y.now ≡ length program.now.rows }
    ensures verdict { farkas_result N.rational result
        ≡ farkas_verdict (limit_of N.WIDTH) (linear_program N.rational program.now) (map N.rational y.now) }
    ensures answer { OnOk result (IsFarkasAnswer (linear_program N.rational program.now) (map N.rational y.now)) }
    ensures infeasible { OnOk result (IsInfeasible (linear_program N.rational program.now)) }
{
    let columns = program.columns();
    if let Some(row) = first_negative(y) {
        return Err(FarkasFault::NegativeRow(row));
    }
    for column in 0..columns {
        let sum = column_sum(program, y, column)?;
        if is_negative(sum) {
            return Err(FarkasFault::Column(column));
        }
    }
    let value = product_sum(program.right(), y)?;
    if is_negative(value) {
        Ok(())
    } else {
        Err(FarkasFault::NotBelowZero)
    }
}
