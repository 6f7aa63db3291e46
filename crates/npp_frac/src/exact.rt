//! What the fractions of every width promise.

ghost use Rattle.std.specs.Prelude.{◌≡◌, ◌≢◌, ◌<◌, ℕ, pos, nat_abs, is_ok, IfOk, IfErr};
ghost use Rattle.npp_frac.specs.Rational.{Rational, whole, zero_ℚ, rational_cmp, ◌+ℚ◌, ◌-ℚ◌, ◌*ℚ◌, ◌/ℚ◌};
ghost use Rattle.npp_frac.specs.Fits.{FitsBelow, IsWidth, limit_of, fits_add, fits_sub, fits_mul, fits_div};
ghost use Rattle.npp_frac.specs.Floor.{IsGreatestWhole, floor as floor_of};
ghost use Rattle.npp_frac.specs.Wide.{value_of_wide};

use crate::frac128::Frac128;
use crate::refusal::{Op, Overflow};
use std::cmp::Ordering;

/// Exact fractions of one width.
///
/// A value is a numerator over a denominator of at least 1, without a common factor, so that zero
/// is 0/1. Both are below `2^(WIDTH - 1)` in size. An operation gives the exact value, or refuses
/// where one of the numbers that it needs reaches that size, though common factors are taken out
/// before numbers are multiplied.
pub trait Exact: Copy {
    /// The width in bits.
    ghost WIDTH: { ℕ };

    /// The rational number that a value stands for.
    ghost rational: { Self → Rational };

    /// The width in bits: 32, 64 or 128.
    const WIDTH: u32;

    /// The fraction of a whole number.
    fn of_whole(value: i64) -> Self
        requires { nat_abs value < limit_of WIDTH }
        ensures { rational result ≡ whole value };

    /// The sum.
    fn add(self, other: Self) -> Result<Self, Overflow<Self>>
        ensures fits { is_ok result ≡ fits_add (limit_of WIDTH) (rational self) (rational other) }
        ensures exact { IfOk result (λ r. rational r ≡ rational self +ℚ rational other) }
        ensures refused { IfErr result (λ e. e ≡ record { op = Op.Add; left = self; right = other }) };

    /// The difference.
    fn sub(self, other: Self) -> Result<Self, Overflow<Self>>
        ensures fits { is_ok result ≡ fits_sub (limit_of WIDTH) (rational self) (rational other) }
        ensures exact { IfOk result (λ r. rational r ≡ rational self -ℚ rational other) }
        ensures refused { IfErr result (λ e. e ≡ record { op = Op.Sub; left = self; right = other }) };

    /// The product.
    fn mul(self, other: Self) -> Result<Self, Overflow<Self>>
        ensures fits { is_ok result ≡ fits_mul (limit_of WIDTH) (rational self) (rational other) }
        ensures exact { IfOk result (λ r. rational r ≡ rational self *ℚ rational other) }
        ensures refused { IfErr result (λ e. e ≡ record { op = Op.Mul; left = self; right = other }) };

    /// The quotient by a divisor that is not zero.
    fn div(self, other: Self) -> Result<Self, Overflow<Self>>
        requires { rational other ≢ zero_ℚ }
        ensures fits { is_ok result ≡ fits_div (limit_of WIDTH) (rational self) (rational other) }
        ensures exact { IfOk result (λ r. rational r ≡ rational self /ℚ rational other) }
        ensures refused { IfErr result (λ e. e ≡ record { op = Op.Div; left = self; right = other }) };

    /// The order of the two numbers.
    fn cmp(self, other: Self) -> Ordering
        ensures { result ≡ rational_cmp (rational self) (rational other) };

    /// The numerator, with the sign of the value.
    fn num(self) -> i128
        ensures { result ≡ (rational self).num };

    /// The denominator.
    fn den(self) -> i128
        ensures { result ≡ pos (rational self).den };

    /// The greatest whole number that is not above the value.
    fn floor(self) -> Self
        ensures exact { rational result ≡ whole (floor_of (rational self)) }
        ensures greatest { IsGreatestWhole (floor_of (rational self)) (rational self) };

    /// The same value at 128 bits.
    fn widen(self) -> Frac128
        ensures { value_of_wide result ≡ rational self };

    // There are three widths.
    ghost width: { IsWidth WIDTH };

    // A value keeps the limit of its width.
    ghost fits: { (x : Self) → FitsBelow (limit_of WIDTH) (rational x) };

    // Values that stand for one number are one value.
    ghost same: { (x y : Self) → rational x ≡ rational y → x ≡ y };
}
