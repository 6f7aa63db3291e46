//! Whole numbers in words of 64 bits, below a limit in size.

ghost use Rattle.std.specs.Prelude.{◌≡◌, ◌<◌, ◌≤◌, ◌^◌, ◌*◌, ◌/◌, pos, ◌+ℤ◌, ◌*ℤ◌, neg_ℤ, int_div, int_lt, cond, nat_abs, IfSome, SomeIff};
ghost use Rattle.std.specs.Int.{int_div_euclid};

use crate::numbers::product_of_words;

/// The size of a number.
#[inline(always)]
pub fn size(a: i64) -> u64
    ensures { result ≡ nat_abs a }
{
    a.unsigned_abs()
}

/// The number with the other sign.
pub fn negative(a: i64) -> i64
    requires { nat_abs a < 2 ^ 63 }
    ensures exact { result ≡ neg_ℤ a }
    ensures size { nat_abs result ≡ nat_abs a }
{
    -a
}

/// The number of a size, with the sign of another number.
pub fn with_sign(size: u64, sign: i64) -> i64
    requires { size < 2 ^ 63 }
    ensures exact { result ≡ cond (int_lt sign (pos 0)) (neg_ℤ (pos size)) (pos size) }
    ensures size { nat_abs result ≡ size }
{
    let positive = size as i64;
    if sign < 0 { -positive } else { positive }
}

/// The quotient by a positive number, rounded toward zero.
#[inline(always)]
pub fn quotient(a: i64, by: u64) -> i64
    requires positive { 0 < by }
    requires below { by < 2 ^ 63 }
    requires size { nat_abs a < 2 ^ 63 }
    ensures exact { result ≡ int_div a (pos by) }
    ensures size { nat_abs result ≡ nat_abs a / by }
{
    if by == 1 { a } else { truncated(a, by) }
}

/// The same as the quotient of the sizes, with the sign of the number.
#[inline(always)]
fn truncated(a: i64, by: u64) -> i64
    requires positive { 0 < by }
    requires below { by < 2 ^ 63 }
    requires size { nat_abs a < 2 ^ 63 }
    ensures exact { result ≡ int_div a (pos by) }
    ensures size { nat_abs result ≡ nat_abs a / by }
{
    with_sign(divided(size(a), by), a)
}

/// The quotient of two numbers that are not negative.
#[inline(always)]
pub fn divided(a: u64, by: u64) -> u64
    requires { 0 < by }
    ensures exact { result ≡ a / by }
    ensures positive { by ≤ a → 0 < result }
{
    if by == 1 { a } else { a / by }
}

/// The quotient by a positive number, rounded down.
pub fn quotient_down(a: i64, by: u64) -> i64
    requires positive { 0 < by }
    requires below { by < 2 ^ 63 }
    requires size { nat_abs a < 2 ^ 63 }
    ensures exact { result ≡ int_div_euclid a (pos by) }
    ensures size { nat_abs result ≤ nat_abs a }
{
    a.div_euclid(by as i64)
}

/// The number, where its size is below the limit.
#[inline(always)]
fn below(value: i128, limit: u64) -> Option<i64>
    requires { limit ≤ 2 ^ 63 }
    ensures { SomeIff result (nat_abs value < limit) value }
{
    let limit = i128::from(limit);
    if -limit < value && value < limit {
        Some(value as i64)
    } else {
        None
    }
}

/// The sum, where its size is below the limit.
#[inline(always)]
pub fn signed_sum(a: i64, b: i64, limit: u64) -> Option<i64>
    requires { limit ≤ 2 ^ 63 }
    ensures { SomeIff result (nat_abs (a +ℤ b) < limit) (a +ℤ b) }
{
    below(i128::from(a) + i128::from(b), limit)
}

/// The product with a number that is not negative, where its size is below the limit.
#[inline(always)]
pub fn scaled(a: i64, b: u64, limit: u64) -> Option<i64>
    requires factor { b < 2 ^ 63 }
    requires limit { limit ≤ 2 ^ 63 }
    ensures { SomeIff result (nat_abs (a *ℤ pos b) < limit) (a *ℤ pos b) }
{
    signed_product(a, b as i64, limit)
}

/// The product, where its size is below the limit.
#[inline(always)]
pub fn signed_product(a: i64, b: i64, limit: u64) -> Option<i64>
    requires { limit ≤ 2 ^ 63 }
    ensures { SomeIff result (nat_abs (a *ℤ b) < limit) (a *ℤ b) }
{
    below(product_of_words(i128::from(a), i128::from(b)), limit)
}

/// The product of two positive numbers, where it is below the limit.
#[inline(always)]
pub fn unsigned_product(a: u64, b: u64, limit: u64) -> Option<u64>
    requires positive { (0 < a) × (0 < b) }
    ensures product { SomeIff result (a * b < limit) (a * b) }
    ensures positive { IfSome result (λ p. 0 < p) }
{
    let exact = a.checked_mul(b)?;
    if exact < limit { Some(exact) } else { None }
}
