//! Sums of a line at the width of its numbers.

ghost use Rattle.std.specs.Prelude.{◌≡◌, ◌<◌, ◌^◌, nat_lt, not};
ghost use Rattle.npp_frac.specs.Fits.{limit_of};
ghost use Rattle.npp_lp.specs.Sums.{joined_sum};
ghost use Rattle.npp_check.specs.Rules.{judged_as, formed, whole_number, same, sum_of, with_counted};

use crate::refusal::Rule;
use npp_frac::{Exact, is_below};

/// Whether a whole number is below the size that the width can hold.
fn is_in_width<N: Exact>(number: u64) -> bool
    requires { number < 2 ^ 63 }
    ensures { result ≡ nat_lt number (limit_of N.WIDTH) }
{
    N::WIDTH != 32 || number < 1 << 31
}

/// A whole number at the width, where it fits.
pub fn whole_number<N: Exact>(number: u64) -> Result<N, Rule>
    requires { number < 2 ^ 63 }
    ensures { judged_as N.rational result ≡ whole_number (limit_of N.WIDTH) number }
{
    if is_in_width::<N>(number) {
        Ok(N::of_whole(number as i64))
    } else {
        Err(Rule::Overflow)
    }
}

/// The sum of two numbers, where it fits.
pub fn sum_of<N: Exact>(first: N, second: N) -> Result<N, Rule>
    ensures { judged_as N.rational result ≡ sum_of (limit_of N.WIDTH) (N.rational first) (N.rational second) }
{
    match first.add(second) {
        Ok(sum) => Ok(sum),
        Err(_) => Err(Rule::Overflow),
    }
}

/// The sum with the product of two numbers added to it, where both fit.
#[tactic(auto, unfolding(npp_lp::specs::Sums::joined_sum))]
fn joined<N: Exact>(sum: N, first: N, second: N) -> Result<N, Rule>
    ensures { judged_as N.rational result ≡ formed (joined_sum (limit_of N.WIDTH) (N.rational sum) (N.rational first) (N.rational second)) }
{
    match first.mul(second) {
        Ok(product) => match sum.add(product) {
            Ok(joined) => Ok(joined),
            Err(_) => Err(Rule::Overflow),
        },
        Err(_) => Err(Rule::Overflow),
    }
}

/// The sum with a number added to it that is counted so often, where each number fits.
pub fn counted<N: Exact>(sum: N, count: u64, value: N) -> Result<N, Rule>
    requires { count < 2 ^ 63 }
    ensures { judged_as N.rational result ≡ with_counted (limit_of N.WIDTH) (N.rational sum) count (N.rational value) }
{
    joined(sum, whole_number(count)?, value)
}

/// Whether two numbers are not equal.
pub fn differ<N: Exact>(first: N, second: N) -> bool
    ensures { result ≡ not (same (N.rational first) (N.rational second)) }
{
    is_below(first, second) || is_below(second, first)
}
