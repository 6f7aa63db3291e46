//! Sums of products, each operation checked in turn.

ghost use Rattle.std.specs.Prelude.{◌≡◌, ◌<◌, length, map, All, MatchOption};
ghost use Rattle.std.specs.List.{AllPairs};
ghost use Rattle.npp_frac.specs.Rational.{zero_ℚ};
ghost use Rattle.npp_frac.specs.Fits.{limit_of};
ghost use Rattle.npp_lp.specs.Programs.{at, row_of};
ghost use Rattle.npp_lp.specs.Duals.{coefficient};
ghost use Rattle.npp_lp.specs.Sums.{joined_sum, checked_sum};
ghost use Rattle.npp_lp.specs.Checked.{checked_column, checked_terms};
ghost use Rattle.npp_lp.specs.Meaning.{terms_of, linear_program, sum_result, IsProgram};

use crate::program::{Entry, Program};
use npp_frac::{Exact, Overflow, is_zero};

/// The sum with the product of two numbers added to it.
pub fn add_product<N: Exact>(sum: N, a: N, b: N) -> Result<N, Overflow<N>>
    ensures { sum_result N.rational result ≡ joined_sum (limit_of N.WIDTH) (N.rational sum) (N.rational a) (N.rational b) }
{
    sum.add(a.mul(b)?)
}

/// What a row has in a column, or None where it has nothing there.
fn entry_in<N: Exact>(row: &[Entry<N>], column: u32) -> Option<N>
    requires { AllPairs (λ s t. s.column < t.column) row.now }
    ensures { MatchOption result
        (coefficient (terms_of N.rational row.now) column ≡ zero_ℚ)
        (λ a. coefficient (terms_of N.rational row.now) column ≡ N.rational a) }
{
    match row.binary_search_by_key(&column, |entry| entry.column) {
        Ok(place) => Some(row[place].value),
        Err(_) => None,
    }
}

/// What a row has in a column: 0 where no entry stands there.
pub fn coefficient_at<N: Exact>(row: &[Entry<N>], column: u32) -> N
    requires { AllPairs (λ s t. s.column < t.column) row.now }
    ensures { N.rational result ≡ coefficient (terms_of N.rational row.now) column }
{
    match entry_in(row, column) {
        Some(value) => value,
        None => N::of_whole(0),
    }
}

/// The sum with what a row has in a column added to it, times the multiplier of the row.
fn add_entry<N: Exact>(
    sum: N,
    row: &[Entry<N>],
    column: u32,
    multiplier: N,
) -> Result<N, Overflow<N>>
    requires { AllPairs (λ s t. s.column < t.column) row.now }
    ensures { sum_result N.rational result
        ≡ joined_sum (limit_of N.WIDTH) (N.rational sum) (coefficient (terms_of N.rational row.now) column) (N.rational multiplier) }
{
    if is_zero(multiplier) {
        return Ok(sum);
    }
    match entry_in(row, column) {
        Some(value) => add_product(sum, value, multiplier),
        None => Ok(sum),
    }
}

/// The sum of a column, each entry times the multiplier of its row.
pub fn column_sum<N: Exact>(program: &Program<N>, y: &[N], column: u32) -> Result<N, Overflow<N>>
    requires program { IsProgram N.rational program.now }
    requires size { length y.now ≡ length program.now.rows }
    ensures { sum_result N.rational result
        ≡ checked_column (limit_of N.WIDTH) (linear_program N.rational program.now) (map N.rational y.now) column }
{
    let mut sum = N::of_whole(0);
    for (row, multiplier) in y.iter().enumerate() {
        sum = add_entry(sum, program.row(row), column, *multiplier)?;
    }
    Ok(sum)
}

/// The sum of the products of two vectors of one length.
pub fn product_sum<N: Exact>(a: &[N], b: &[N]) -> Result<N, Overflow<N>>
    requires { length a.now ≡ length b.now }
    ensures { sum_result N.rational result
        ≡ checked_sum (limit_of N.WIDTH) (length a.now) (at (map N.rational a.now)) (at (map N.rational b.now)) }
{
    let mut sum = N::of_whole(0);
    for (place, number) in a.iter().enumerate() {
        sum = add_product(sum, *number, b[place])?;
    }
    Ok(sum)
}

/// The sum of a row at a point.
pub fn row_sum<N: Exact>(row: &[Entry<N>], x: &[N]) -> Result<N, Overflow<N>>
    requires { All (λ t. t.column < length x.now) row.now }
    ensures { sum_result N.rational result
        ≡ checked_terms (limit_of N.WIDTH) (terms_of N.rational row.now) (map N.rational x.now) }
{
    let mut sum = N::of_whole(0);
    for entry in row {
        sum = add_product(sum, entry.value, x[entry.column as usize])?;
    }
    Ok(sum)
}
