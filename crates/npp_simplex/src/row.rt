//! The numbers of one row.

ghost use Rattle.std.specs.Prelude.{◌≡◌, ◌≢◌, ℕ, ◌<◌, ◌^◌, length, map, is_some, IfSome, IfNone};
ghost use Rattle.npp_frac.specs.Rational.{zero_ℚ, ◌-ℚ◌, ◌*ℚ◌, ◌/ℚ◌};
ghost use Rattle.npp_frac.specs.Fits.{limit_of, fits_div};
ghost use Rattle.npp_lp.specs.Programs.{at};
ghost use Rattle.npp_lp.specs.Verdict.{first_below};
ghost use Rattle.npp_simplex.specs.Places.{column_unless, fits_less_product};
ghost use Rattle.npp_simplex.specs.Steps.{nonzero_columns as nonzero_columns_of};

use crate::line::Line;
use crate::numbers::quotient;
use npp_frac::Exact;

/// A number less the product of two, where both the product and the difference fit.
pub fn less_product<N: Exact>(number: N, factor: N, other: N) -> Option<N>
    ensures fits { is_some result ≡ fits_less_product (limit_of N.WIDTH) (N.rational number) (N.rational factor) (N.rational other) }
    ensures exact { IfSome result (λ r. N.rational r ≡ N.rational number -ℚ N.rational factor *ℚ N.rational other) }
{
    match factor.mul(other) {
        Ok(product) => match number.sub(product) {
            Ok(difference) => Some(difference),
            Err(_) => None,
        },
        Err(_) => None,
    }
}

/// Divides each number of a row, up to the first quotient that does not fit, whose column it answers.
pub fn divide<N: Exact>(row: &mut [N], divisor: N) -> Option<u32>
    requires short { length row.old < 2 ^ 32 }
    requires divisor { N.rational divisor ≢ zero_ℚ }
    ensures stop { result ≡ first_below (length row.old) (λ j. column_unless (fits_div (limit_of N.WIDTH) (at (map N.rational row.old) j) (N.rational divisor)) j) }
    ensures divided { IfNone result ((j : ℕ) → j < length row.old → at (map N.rational row.new) j ≡ at (map N.rational row.old) j /ℚ N.rational divisor) }
{
    for j in 0..row.len() {
        match quotient(row[j], divisor) {
            Some(quotient) => row[j] = quotient,
            None => return Some(j as u32),
        }
    }
    None
}

/// Takes a multiple of another row from a row, up to the first number that does not fit, whose column it answers.
/// The columns are those at which the other row is not 0: elsewhere nothing changes. It is not inlined, so that its loop
/// has the registers for itself.
#[inline(never)]
pub fn eliminate<N: Exact>(
    row: &mut [N],
    factor: N,
    other: &Line<N>,
    columns: &[u32],
) -> Option<u32>
    requires lengths { length other.now ≡ length row.old }
    requires columns { columns.now ≡ nonzero_columns_of (at other.now) (length row.old) }
    ensures stop { result ≡ first_below (length row.old) (λ j. column_unless (fits_less_product (limit_of N.WIDTH) (at (map N.rational row.old) j) (N.rational factor) (at other.now j)) j) }
    ensures reduced { IfNone result ((j : ℕ) → j < length row.old → at (map N.rational row.new) j ≡ at (map N.rational row.old) j -ℚ N.rational factor *ℚ at other.now j) }
{
    for s in 0..columns.len() {
        let column = columns[s];
        let j = column as usize;
        match less_product(row[j], factor, other.number(j)) {
            Some(difference) => row[j] = difference,
            None => return Some(column),
        }
    }
    None
}
