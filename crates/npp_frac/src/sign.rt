//! Tests of sign and of order.

ghost use Rattle.std.specs.Prelude.{◌≡◌, ◌↔◌, IsTrue};
ghost use Rattle.npp_frac.specs.Rational.{zero_ℚ, is_less};

use crate::exact::Exact;

/// Whether the number is 0.
pub fn is_zero<N: Exact>(number: N) -> bool
    ensures { IsTrue result ↔ (N.rational number ≡ zero_ℚ) }
{
    number.num() == 0
}

/// Whether the number is below 0.
pub fn is_negative<N: Exact>(number: N) -> bool
    ensures { result ≡ is_less (N.rational number) zero_ℚ }
{
    number.num() < 0
}

/// Whether the number is above 0.
pub fn is_positive<N: Exact>(number: N) -> bool
    ensures { result ≡ is_less zero_ℚ (N.rational number) }
{
    number.num() > 0
}

/// Whether the first number is below the second.
pub fn is_below<N: Exact>(first: N, second: N) -> bool
    ensures { result ≡ is_less (N.rational first) (N.rational second) }
{
    first.cmp(second).is_lt()
}
