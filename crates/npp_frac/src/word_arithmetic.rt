//! Operations on pairs of words, below a limit. A number that does not fit a word is not below the limit, so that no
//! operation needs longer ones.

ghost use Rattle.std.specs.Prelude.{◌≡◌, ◌≢◌, ◌<◌, ◌≤◌, ◌^◌, ◌↔◌, nat_abs, is_some, IsTrue, IsSome, IfSome};
ghost use Rattle.npp_frac.specs.Gcd.{gcd as gcd_of};
ghost use Rattle.npp_frac.specs.Rational.{ratio, whole, zero_ℚ, negative as negative_of, reciprocal, ◌+ℚ◌, ◌-ℚ◌, ◌*ℚ◌, ◌/ℚ◌};
ghost use Rattle.npp_frac.specs.Fits.{FitsBelow, FitsAdd, FitsMul, fits_add, fits_sub, fits_mul, fits_div};
ghost use Rattle.npp_frac.specs.Floor.{IsGreatestWhole, floor as floor_of};
ghost use Rattle.npp_frac.specs.Value.{value_of_words};

use crate::gcd::word_gcd;
use crate::reduced_words::ReducedWords;
use crate::word_numbers::{
    divided, negative, quotient, quotient_down, scaled, signed_product, signed_sum, size,
    unsigned_product, with_sign,
};

/// The pair of a numerator and a denominator whose greatest common divisor is given.
#[inline(always)]
pub fn reduced(num: i64, den: u64, divisor: u64) -> ReducedWords
    requires positive { 0 < den }
    requires num { nat_abs num < 2 ^ 63 }
    requires den { den < 2 ^ 63 }
    requires divisor { divisor ≡ gcd_of (nat_abs num) den }
    ensures exact { value_of_words result ≡ ratio num den }
    ensures num { nat_abs result.num ≤ nat_abs num }
    ensures den { result.den ≤ den }
{
    ReducedWords {
        num: quotient(num, divisor),
        den: divided(den, divisor),
    }
}

/// Whether both values are whole numbers, as most are. They have no common factors to take out.
#[inline(always)]
fn are_whole(a: ReducedWords, b: ReducedWords) -> bool
    ensures { IsTrue result → (a.den ≡ 1) × (b.den ≡ 1) }
{
    a.den == 1 && b.den == 1
}

/// The sum, where its numbers are below the limit.
#[inline(always)]
pub fn sum(a: ReducedWords, b: ReducedWords, limit: u64) -> Option<ReducedWords>
    requires limit { limit ≤ 2 ^ 63 }
    requires left { FitsBelow limit (value_of_words a) }
    requires right { FitsBelow limit (value_of_words b) }
    ensures fits { IsSome result ↔ FitsAdd limit (value_of_words a) (value_of_words b) }
    ensures exact { IfSome result (λ r. value_of_words r ≡ value_of_words a +ℚ value_of_words b) }
    ensures below { IfSome result (λ r. FitsBelow limit (value_of_words r)) }
{
    if are_whole(a, b) {
        whole_sum(a, b, limit)
    } else if a.den == b.den {
        equal_sum(a, b, limit)
    } else {
        fraction_sum(a, b, limit)
    }
}

/// The sum of fractions of one denominator, where it is below the limit. The numerators are added as they stand.
fn equal_sum(a: ReducedWords, b: ReducedWords, limit: u64) -> Option<ReducedWords>
    requires limit { limit ≤ 2 ^ 63 }
    requires same { a.den ≡ b.den }
    requires left { FitsBelow limit (value_of_words a) }
    requires right { FitsBelow limit (value_of_words b) }
    ensures fits { IsSome result ↔ FitsAdd limit (value_of_words a) (value_of_words b) }
    ensures exact { IfSome result (λ r. value_of_words r ≡ value_of_words a +ℚ value_of_words b) }
    ensures below { IfSome result (λ r. FitsBelow limit (value_of_words r)) }
{
    let total = signed_sum(a.num, b.num, limit)?;
    Some(reduced(total, b.den, word_gcd(size(total), b.den)))
}

/// The sum of whole numbers, where it is below the limit.
#[inline(always)]
fn whole_sum(a: ReducedWords, b: ReducedWords, limit: u64) -> Option<ReducedWords>
    requires limit { limit ≤ 2 ^ 63 }
    requires whole { (a.den ≡ 1) × (b.den ≡ 1) }
    requires left { FitsBelow limit (value_of_words a) }
    requires right { FitsBelow limit (value_of_words b) }
    ensures fits { IsSome result ↔ FitsAdd limit (value_of_words a) (value_of_words b) }
    ensures exact { IfSome result (λ r. value_of_words r ≡ value_of_words a +ℚ value_of_words b) }
    ensures below { IfSome result (λ r. FitsBelow limit (value_of_words r)) }
{
    let num = signed_sum(a.num, b.num, limit)?;
    Some(of_whole(num))
}

/// The sum, where its numbers are below the limit.
fn fraction_sum(a: ReducedWords, b: ReducedWords, limit: u64) -> Option<ReducedWords>
    requires { limit ≤ 2 ^ 63 }
    ensures fits { IsSome result ↔ FitsAdd limit (value_of_words a) (value_of_words b) }
    ensures exact { IfSome result (λ r. value_of_words r ≡ value_of_words a +ℚ value_of_words b) }
    ensures below { IfSome result (λ r. FitsBelow limit (value_of_words r)) }
{
    let g = word_gcd(a.den, b.den);
    let a_den = divided(a.den, g);
    let b_den = divided(b.den, g);
    let left = scaled(a.num, b_den, limit)?;
    let right = scaled(b.num, a_den, limit)?;
    let total = signed_sum(left, right, limit)?;
    let den = unsigned_product(a_den, b.den, limit)?;
    // A common factor of the total and the denominator is one of the denominators too.
    Some(reduced(total, den, word_gcd(size(total), g)))
}

/// The product, where its numbers are below the limit.
#[inline(always)]
pub fn product(a: ReducedWords, b: ReducedWords, limit: u64) -> Option<ReducedWords>
    requires limit { limit ≤ 2 ^ 63 }
    requires above { 1 < limit }
    ensures fits { IsSome result ↔ FitsMul limit (value_of_words a) (value_of_words b) }
    ensures exact { IfSome result (λ r. value_of_words r ≡ value_of_words a *ℚ value_of_words b) }
    ensures below { IfSome result (λ r. FitsBelow limit (value_of_words r)) }
{
    if are_whole(a, b) {
        whole_product(a, b, limit)
    } else {
        fraction_product(a, b, limit)
    }
}

/// The product of whole numbers, where it is below the limit.
#[inline(always)]
fn whole_product(a: ReducedWords, b: ReducedWords, limit: u64) -> Option<ReducedWords>
    requires limit { limit ≤ 2 ^ 63 }
    requires above { 1 < limit }
    requires whole { (a.den ≡ 1) × (b.den ≡ 1) }
    ensures fits { IsSome result ↔ FitsMul limit (value_of_words a) (value_of_words b) }
    ensures exact { IfSome result (λ r. value_of_words r ≡ value_of_words a *ℚ value_of_words b) }
    ensures below { IfSome result (λ r. FitsBelow limit (value_of_words r)) }
{
    let num = signed_product(a.num, b.num, limit)?;
    Some(of_whole(num))
}

/// The product, where its numbers are below the limit.
fn fraction_product(a: ReducedWords, b: ReducedWords, limit: u64) -> Option<ReducedWords>
    requires { limit ≤ 2 ^ 63 }
    ensures fits { IsSome result ↔ FitsMul limit (value_of_words a) (value_of_words b) }
    ensures exact { IfSome result (λ r. value_of_words r ≡ value_of_words a *ℚ value_of_words b) }
    ensures below { IfSome result (λ r. FitsBelow limit (value_of_words r)) }
{
    let first = word_gcd(size(a.num), b.den);
    let second = word_gcd(size(b.num), a.den);
    let left = quotient(a.num, first);
    let right = quotient(b.num, second);
    let num = signed_product(left, right, limit)?;
    let den = unsigned_product(divided(a.den, second), divided(b.den, first), limit)?;
    Some(ReducedWords { num, den })
}

/// The pair of a whole number.
#[inline(always)]
pub fn of_whole(num: i64) -> ReducedWords
    requires { nat_abs num < 2 ^ 63 }
    ensures exact { value_of_words result ≡ whole num }
    ensures num { result.num ≡ num }
    ensures den { result.den ≡ 1 }
{
    ReducedWords { num, den: 1 }
}

/// The negative.
#[inline(always)]
pub fn negated(a: ReducedWords) -> ReducedWords
    ensures exact { value_of_words result ≡ negative_of (value_of_words a) }
    ensures num { nat_abs result.num ≡ nat_abs a.num }
    ensures den { result.den ≡ a.den }
{
    ReducedWords {
        num: negative(a.num),
        den: a.den,
    }
}

/// The reciprocal of a value that is not zero.
pub fn inverse(a: ReducedWords) -> ReducedWords
    requires { value_of_words a ≢ zero_ℚ }
    ensures { value_of_words result ≡ reciprocal (value_of_words a) }
{
    ReducedWords {
        num: with_sign(a.den, a.num),
        den: size(a.num),
    }
}

/// The greatest whole number that is not above the value.
pub fn floor(a: ReducedWords) -> ReducedWords
    ensures exact { value_of_words result ≡ whole (floor_of (value_of_words a)) }
    ensures greatest { IsGreatestWhole (floor_of (value_of_words a)) (value_of_words a) }
    ensures num { nat_abs result.num ≤ nat_abs a.num }
    ensures den { result.den ≡ 1 }
{
    ReducedWords {
        num: quotient_down(a.num, a.den),
        den: 1,
    }
}

/// The sum, by the rule as a test.
#[inline(always)]
pub fn add(a: ReducedWords, b: ReducedWords, limit: u64) -> Option<ReducedWords>
    requires limit { limit ≤ 2 ^ 63 }
    requires left { FitsBelow limit (value_of_words a) }
    requires right { FitsBelow limit (value_of_words b) }
    ensures fits { is_some result ≡ fits_add limit (value_of_words a) (value_of_words b) }
    ensures exact { IfSome result (λ r. value_of_words r ≡ value_of_words a +ℚ value_of_words b) }
    ensures below { IfSome result (λ r. FitsBelow limit (value_of_words r)) }
{
    sum(a, b, limit)
}

/// The difference.
#[inline(always)]
pub fn sub(a: ReducedWords, b: ReducedWords, limit: u64) -> Option<ReducedWords>
    requires limit { limit ≤ 2 ^ 63 }
    requires left { FitsBelow limit (value_of_words a) }
    requires right { FitsBelow limit (value_of_words b) }
    ensures fits { is_some result ≡ fits_sub limit (value_of_words a) (value_of_words b) }
    ensures exact { IfSome result (λ r. value_of_words r ≡ value_of_words a -ℚ value_of_words b) }
    ensures below { IfSome result (λ r. FitsBelow limit (value_of_words r)) }
{
    add(a, negated(b), limit)
}

/// The product, by the rule as a test.
#[inline(always)]
pub fn mul(a: ReducedWords, b: ReducedWords, limit: u64) -> Option<ReducedWords>
    requires limit { limit ≤ 2 ^ 63 }
    requires above { 1 < limit }
    ensures fits { is_some result ≡ fits_mul limit (value_of_words a) (value_of_words b) }
    ensures exact { IfSome result (λ r. value_of_words r ≡ value_of_words a *ℚ value_of_words b) }
    ensures below { IfSome result (λ r. FitsBelow limit (value_of_words r)) }
{
    product(a, b, limit)
}

/// The quotient.
pub fn div(a: ReducedWords, b: ReducedWords, limit: u64) -> Option<ReducedWords>
    requires limit { limit ≤ 2 ^ 63 }
    requires above { 1 < limit }
    requires divisor { value_of_words b ≢ zero_ℚ }
    ensures fits { is_some result ≡ fits_div limit (value_of_words a) (value_of_words b) }
    ensures exact { IfSome result (λ r. value_of_words r ≡ value_of_words a /ℚ value_of_words b) }
    ensures below { IfSome result (λ r. FitsBelow limit (value_of_words r)) }
{
    mul(a, inverse(b), limit)
}
