//! Checks of answers whose multipliers name their rows.

ghost use Rattle.std.specs.Prelude.{◌≡◌, length};
ghost use Rattle.npp_frac.specs.Fits.{limit_of};
ghost use Rattle.npp_lp.specs.DualVerdict.{dual_verdict};
ghost use Rattle.npp_lp.specs.FarkasVerdict.{farkas_verdict};
ghost use Rattle.npp_lp.specs.Meaning.{linear_program, dual_result, farkas_result, IsProgram};
ghost use Rattle.npp_lp.specs.Sparse.{AreRowMultipliers, dense, multipliers_meant};
ghost use Rattle.npp_lp.specs.RunningSums.{sums_meant, AreSumsOf};

use crate::faults::{DualFault, FarkasFault};
use crate::multiplier::RowMultiplier;
use crate::program::Program;
use crate::running::RunningSums;
use npp_frac::Exact;

/// Forms the sums of the rows that the multipliers name.
fn sum_rows<N: Exact>(
    sums: &mut RunningSums<N>,
    program: &Program<N>,
    multipliers: &[RowMultiplier<N>],
)
    requires columns { length sums.old.columns ≡ program.now.columns }
    requires rows { AreRowMultipliers (length program.now.rows) multipliers.now }
    ensures sums { AreSumsOf (limit_of N.WIDTH) (linear_program N.rational program.now) (multipliers_meant N.rational multipliers.now) (sums_meant N.rational sums.new) }
    ensures form { IsProgram N.rational program.now }
{
    let _rows = program.row_count();
    sums.clear();
    for place in 0..multipliers.len() {
        let multiplier = multipliers[place];
        let row = multiplier.row as usize;
        sums.add_row(
            multiplier.row,
            program.row(row),
            program.right()[row],
            multiplier.value,
        );
    }
}

/// What [`check_dual`](crate::check_dual) answers at these multipliers, with 0 for each row that they do not name.
///
/// It takes the time of the entries of the named rows and of the columns, and no memory: the sums are formed in `sums`.
pub fn check_sparse_dual<N: Exact>(
    sums: &mut RunningSums<N>,
    program: &Program<N>,
    multipliers: &[RowMultiplier<N>],
) -> Result<N, DualFault<N>>
    requires columns { length sums.old.columns ≡ program.now.columns }
    requires rows { AreRowMultipliers (length program.now.rows) multipliers.now }
    ensures verdict { dual_result N.rational result
        ≡ dual_verdict (limit_of N.WIDTH) (linear_program N.rational program.now) (dense (length program.now.rows) (multipliers_meant N.rational multipliers.now)) }
    ensures columns { length sums.new.columns ≡ program.now.columns }
{
    sum_rows(sums, program, multipliers);
    sums.judge_dual(program.goal())
}

/// What [`check_farkas`](crate::check_farkas) answers at these multipliers, with 0 for each row that they do not name.
///
/// It takes the time of the entries of the named rows and of the columns, and no memory: the sums are formed in `sums`.
pub fn check_sparse_farkas<N: Exact>(
    sums: &mut RunningSums<N>,
    program: &Program<N>,
    multipliers: &[RowMultiplier<N>],
) -> Result<(), FarkasFault<N>>
    requires columns { length sums.old.columns ≡ program.now.columns }
    requires rows { AreRowMultipliers (length program.now.rows) multipliers.now }
    ensures verdict { farkas_result N.rational result
        ≡ farkas_verdict (limit_of N.WIDTH) (linear_program N.rational program.now) (dense (length program.now.rows) (multipliers_meant N.rational multipliers.now)) }
    ensures columns { length sums.new.columns ≡ program.now.columns }
{
    sum_rows(sums, program, multipliers);
    sums.judge_farkas()
}
