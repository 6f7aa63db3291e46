//! Operations on pairs of long numbers, below a limit. They are inlined, since to copy their results takes longer than
//! to find them.

ghost use Rattle.std.specs.Prelude.{◌≡◌, ◌≢◌, ◌<◌, ◌≤◌, ◌^◌, ◌↔◌, nat_abs, is_some, IsTrue, IsSome, IfSome};
ghost use Rattle.npp_frac.specs.Gcd.{gcd as gcd_of};
ghost use Rattle.npp_frac.specs.Rational.{ratio, whole, zero_ℚ, negative as negative_of, reciprocal, ◌+ℚ◌, ◌-ℚ◌, ◌*ℚ◌, ◌/ℚ◌};
ghost use Rattle.npp_frac.specs.Fits.{FitsBelow, FitsAdd, FitsMul, fits_add, fits_sub, fits_mul, fits_div};
ghost use Rattle.npp_frac.specs.Floor.{IsGreatestWhole, floor as floor_of};
ghost use Rattle.npp_frac.specs.Value.{value_of};

use crate::gcd::gcd;
use crate::numbers::{
    divided, negative, quotient, quotient_down, scaled, signed_product, signed_sum, size,
    unsigned_product, with_sign,
};
use crate::reduced::Reduced;

/// The pair of a numerator and a denominator whose greatest common divisor is given.
#[inline(always)]
pub fn reduced(num: i128, den: u128, divisor: u128) -> Reduced
    requires positive { 0 < den }
    requires num { nat_abs num < 2 ^ 127 }
    requires den { den < 2 ^ 127 }
    requires divisor { divisor ≡ gcd_of (nat_abs num) den }
    ensures exact { value_of result ≡ ratio num den }
    ensures num { nat_abs result.num ≤ nat_abs num }
    ensures den { result.den ≤ den }
{
    Reduced {
        num: quotient(num, divisor),
        den: divided(den, divisor),
    }
}

/// Whether both values are whole numbers, as most are. They have no common factors to take out.
#[inline(always)]
fn are_whole(a: Reduced, b: Reduced) -> bool
    ensures { IsTrue result → (a.den ≡ 1) × (b.den ≡ 1) }
{
    a.den == 1 && b.den == 1
}

/// The sum, where its numbers are below the limit.
#[inline(always)]
pub fn sum(a: Reduced, b: Reduced, limit: u128) -> Option<Reduced>
    requires limit { limit ≤ 2 ^ 127 }
    requires left { FitsBelow limit (value_of a) }
    requires right { FitsBelow limit (value_of b) }
    ensures fits { IsSome result ↔ FitsAdd limit (value_of a) (value_of b) }
    ensures exact { IfSome result (λ r. value_of r ≡ value_of a +ℚ value_of b) }
    ensures below { IfSome result (λ r. FitsBelow limit (value_of r)) }
{
    if are_whole(a, b) {
        whole_sum(a, b, limit)
    } else if a.den == b.den {
        equal_sum(a, b, limit)
    } else {
        fraction_sum(a, b, limit)
    }
}

/// The sum of fractions of one denominator, where it is below the limit. The numerators are added as they stand.
fn equal_sum(a: Reduced, b: Reduced, limit: u128) -> Option<Reduced>
    requires limit { limit ≤ 2 ^ 127 }
    requires same { a.den ≡ b.den }
    requires left { FitsBelow limit (value_of a) }
    requires right { FitsBelow limit (value_of b) }
    ensures fits { IsSome result ↔ FitsAdd limit (value_of a) (value_of b) }
    ensures exact { IfSome result (λ r. value_of r ≡ value_of a +ℚ value_of b) }
    ensures below { IfSome result (λ r. FitsBelow limit (value_of r)) }
{
    let total = signed_sum(a.num, b.num, limit)?;
    Some(reduced(total, b.den, gcd(size(total), b.den)))
}

/// The sum of whole numbers, where it is below the limit.
#[inline(always)]
fn whole_sum(a: Reduced, b: Reduced, limit: u128) -> Option<Reduced>
    requires limit { limit ≤ 2 ^ 127 }
    requires whole { (a.den ≡ 1) × (b.den ≡ 1) }
    requires left { FitsBelow limit (value_of a) }
    requires right { FitsBelow limit (value_of b) }
    ensures fits { IsSome result ↔ FitsAdd limit (value_of a) (value_of b) }
    ensures exact { IfSome result (λ r. value_of r ≡ value_of a +ℚ value_of b) }
    ensures below { IfSome result (λ r. FitsBelow limit (value_of r)) }
{
    let num = signed_sum(a.num, b.num, limit)?;
    Some(of_whole(num))
}

/// The sum, where its numbers are below the limit.
fn fraction_sum(a: Reduced, b: Reduced, limit: u128) -> Option<Reduced>
    requires { limit ≤ 2 ^ 127 }
    ensures fits { IsSome result ↔ FitsAdd limit (value_of a) (value_of b) }
    ensures exact { IfSome result (λ r. value_of r ≡ value_of a +ℚ value_of b) }
    ensures below { IfSome result (λ r. FitsBelow limit (value_of r)) }
{
    let g = gcd(a.den, b.den);
    let a_den = divided(a.den, g);
    let b_den = divided(b.den, g);
    let left = scaled(a.num, b_den, limit)?;
    let right = scaled(b.num, a_den, limit)?;
    let total = signed_sum(left, right, limit)?;
    let den = unsigned_product(a_den, b.den, limit)?;
    // A common factor of the total and the denominator is one of the denominators too.
    Some(reduced(total, den, gcd(size(total), g)))
}

/// The product, where its numbers are below the limit.
#[inline(always)]
pub fn product(a: Reduced, b: Reduced, limit: u128) -> Option<Reduced>
    requires limit { limit ≤ 2 ^ 127 }
    requires above { 1 < limit }
    ensures fits { IsSome result ↔ FitsMul limit (value_of a) (value_of b) }
    ensures exact { IfSome result (λ r. value_of r ≡ value_of a *ℚ value_of b) }
    ensures below { IfSome result (λ r. FitsBelow limit (value_of r)) }
{
    if are_whole(a, b) {
        whole_product(a, b, limit)
    } else {
        fraction_product(a, b, limit)
    }
}

/// The product of whole numbers, where it is below the limit.
#[inline(always)]
fn whole_product(a: Reduced, b: Reduced, limit: u128) -> Option<Reduced>
    requires limit { limit ≤ 2 ^ 127 }
    requires above { 1 < limit }
    requires whole { (a.den ≡ 1) × (b.den ≡ 1) }
    ensures fits { IsSome result ↔ FitsMul limit (value_of a) (value_of b) }
    ensures exact { IfSome result (λ r. value_of r ≡ value_of a *ℚ value_of b) }
    ensures below { IfSome result (λ r. FitsBelow limit (value_of r)) }
{
    let num = signed_product(a.num, b.num, limit)?;
    Some(of_whole(num))
}

/// The product, where its numbers are below the limit.
fn fraction_product(a: Reduced, b: Reduced, limit: u128) -> Option<Reduced>
    requires { limit ≤ 2 ^ 127 }
    ensures fits { IsSome result ↔ FitsMul limit (value_of a) (value_of b) }
    ensures exact { IfSome result (λ r. value_of r ≡ value_of a *ℚ value_of b) }
    ensures below { IfSome result (λ r. FitsBelow limit (value_of r)) }
{
    let first = gcd(size(a.num), b.den);
    let second = gcd(size(b.num), a.den);
    let left = quotient(a.num, first);
    let right = quotient(b.num, second);
    let num = signed_product(left, right, limit)?;
    let den = unsigned_product(divided(a.den, second), divided(b.den, first), limit)?;
    Some(Reduced { num, den })
}

/// The pair of a whole number.
#[inline(always)]
pub fn of_whole(num: i128) -> Reduced
    requires { nat_abs num < 2 ^ 127 }
    ensures exact { value_of result ≡ whole num }
    ensures num { result.num ≡ num }
    ensures den { result.den ≡ 1 }
{
    Reduced { num, den: 1 }
}

/// The negative.
#[inline(always)]
pub fn negated(a: Reduced) -> Reduced
    ensures exact { value_of result ≡ negative_of (value_of a) }
    ensures num { nat_abs result.num ≡ nat_abs a.num }
    ensures den { result.den ≡ a.den }
{
    Reduced {
        num: negative(a.num),
        den: a.den,
    }
}

/// The reciprocal of a value that is not zero.
pub fn inverse(a: Reduced) -> Reduced
    requires { value_of a ≢ zero_ℚ }
    ensures { value_of result ≡ reciprocal (value_of a) }
{
    Reduced {
        num: with_sign(a.den, a.num),
        den: size(a.num),
    }
}

/// The greatest whole number that is not above the value.
pub fn floor(a: Reduced) -> Reduced
    ensures exact { value_of result ≡ whole (floor_of (value_of a)) }
    ensures greatest { IsGreatestWhole (floor_of (value_of a)) (value_of a) }
    ensures num { nat_abs result.num ≤ nat_abs a.num }
    ensures den { result.den ≡ 1 }
{
    Reduced {
        num: quotient_down(a.num, a.den),
        den: 1,
    }
}

/// The sum, by the rule as a test.
#[inline(always)]
pub fn add(a: Reduced, b: Reduced, limit: u128) -> Option<Reduced>
    requires limit { limit ≤ 2 ^ 127 }
    requires left { FitsBelow limit (value_of a) }
    requires right { FitsBelow limit (value_of b) }
    ensures fits { is_some result ≡ fits_add limit (value_of a) (value_of b) }
    ensures exact { IfSome result (λ r. value_of r ≡ value_of a +ℚ value_of b) }
    ensures below { IfSome result (λ r. FitsBelow limit (value_of r)) }
{
    sum(a, b, limit)
}

/// The difference.
#[inline(always)]
pub fn sub(a: Reduced, b: Reduced, limit: u128) -> Option<Reduced>
    requires limit { limit ≤ 2 ^ 127 }
    requires left { FitsBelow limit (value_of a) }
    requires right { FitsBelow limit (value_of b) }
    ensures fits { is_some result ≡ fits_sub limit (value_of a) (value_of b) }
    ensures exact { IfSome result (λ r. value_of r ≡ value_of a -ℚ value_of b) }
    ensures below { IfSome result (λ r. FitsBelow limit (value_of r)) }
{
    add(a, negated(b), limit)
}

/// The product, by the rule as a test.
#[inline(always)]
pub fn mul(a: Reduced, b: Reduced, limit: u128) -> Option<Reduced>
    requires limit { limit ≤ 2 ^ 127 }
    requires above { 1 < limit }
    ensures fits { is_some result ≡ fits_mul limit (value_of a) (value_of b) }
    ensures exact { IfSome result (λ r. value_of r ≡ value_of a *ℚ value_of b) }
    ensures below { IfSome result (λ r. FitsBelow limit (value_of r)) }
{
    product(a, b, limit)
}

/// The quotient.
pub fn div(a: Reduced, b: Reduced, limit: u128) -> Option<Reduced>
    requires limit { limit ≤ 2 ^ 127 }
    requires above { 1 < limit }
    requires divisor { value_of b ≢ zero_ℚ }
    ensures fits { is_some result ≡ fits_div limit (value_of a) (value_of b) }
    ensures exact { IfSome result (λ r. value_of r ≡ value_of a /ℚ value_of b) }
    ensures below { IfSome result (λ r. FitsBelow limit (value_of r)) }
{
    mul(a, inverse(b), limit)
}
