//! Single numbers.

ghost use Rattle.std.specs.Prelude.{◌≡◌, ◌≢◌, ◌⊎◌, is_some, IfSome};
ghost use Rattle.npp_frac.specs.Rational.{zero_ℚ, one_ℚ, negative, ◌≤ℚ◌, ◌/ℚ◌};
ghost use Rattle.npp_frac.specs.Fits.{limit_of, fits_div};

use npp_frac::{Exact, is_below, is_zero};

/// The number 0.
pub fn zero<N: Exact>() -> N
    ensures { N.rational result ≡ zero_ℚ }
{
    N::of_whole(0)
}

/// The number 1.
pub fn one<N: Exact>() -> N
    ensures { N.rational result ≡ one_ℚ }
{
    N::of_whole(1)
}

/// The number -1.
pub fn minus_one<N: Exact>() -> N
    ensures { N.rational result ≡ negative one_ℚ }
{
    N::of_whole(-1)
}

/// The negative of a number.
pub fn negated<N: Exact>(number: N) -> N
    ensures { N.rational result ≡ negative (N.rational number) }
{
    match zero::<N>().sub(number) {
        Ok(difference) => difference,
        Err(_) => unreachable!(),
    }
}

/// The quotient of two numbers, where it fits.
pub fn quotient<N: Exact>(number: N, divisor: N) -> Option<N>
    requires { N.rational divisor ≢ zero_ℚ }
    ensures fits { is_some result ≡ fits_div (limit_of N.WIDTH) (N.rational number) (N.rational divisor) }
    ensures exact { IfSome result (λ q. N.rational q ≡ N.rational number /ℚ N.rational divisor) }
{
    if is_zero(number) {
        return Some(number);
    }
    match number.div(divisor) {
        Ok(quotient) => Some(quotient),
        Err(_) => None,
    }
}

/// The lesser of two numbers.
pub fn lesser<N: Exact>(first: N, second: N) -> N
    ensures one_of { (N.rational result ≡ N.rational first) ⊎ (N.rational result ≡ N.rational second) }
    ensures first { N.rational result ≤ℚ N.rational first }
    ensures second { N.rational result ≤ℚ N.rational second }
{
    if is_below(second, first) {
        second
    } else {
        first
    }
}
