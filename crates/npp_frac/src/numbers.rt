//! Whole numbers below a limit in size.

ghost use Rattle.std.specs.Prelude.{◌≡◌, ◌<◌, ◌≤◌, ◌^◌, ◌*◌, ◌/◌, IsTrue, pos, ◌+ℤ◌, ◌*ℤ◌, neg_ℤ, int_div, int_lt, cond, nat_abs, IfSome, SomeIff, FitsSigned};
ghost use Rattle.std.specs.Int.{int_div_euclid, w128};

/// The greatest number of 64 bits.
pub const WORD: u128 = 18_446_744_073_709_551_615;

/// The size of a number.
#[inline(always)]
pub fn size(a: i128) -> u128
    ensures { result ≡ nat_abs a }
{
    a.unsigned_abs()
}

/// The number with the other sign.
pub fn negative(a: i128) -> i128
    requires { nat_abs a < 2 ^ 127 }
    ensures exact { result ≡ neg_ℤ a }
    ensures size { nat_abs result ≡ nat_abs a }
{
    -a
}

/// The number of a size, with the sign of another number.
pub fn with_sign(size: u128, sign: i128) -> i128
    requires { size < 2 ^ 127 }
    ensures exact { result ≡ cond (int_lt sign (pos 0)) (neg_ℤ (pos size)) (pos size) }
    ensures size { nat_abs result ≡ size }
{
    let positive = size as i128;
    if sign < 0 { -positive } else { positive }
}

/// The quotient by a positive number, rounded toward zero.
#[inline(always)]
pub fn quotient(a: i128, by: u128) -> i128
    requires positive { 0 < by }
    requires below { by < 2 ^ 127 }
    requires size { nat_abs a < 2 ^ 127 }
    ensures exact { result ≡ int_div a (pos by) }
    ensures size { nat_abs result ≡ nat_abs a / by }
{
    if by == 1 { a } else { truncated(a, by) }
}

/// The same as the quotient of the sizes, with the sign of the number.
#[inline(always)]
fn truncated(a: i128, by: u128) -> i128
    requires positive { 0 < by }
    requires below { by < 2 ^ 127 }
    requires size { nat_abs a < 2 ^ 127 }
    ensures exact { result ≡ int_div a (pos by) }
    ensures size { nat_abs result ≡ nat_abs a / by }
{
    with_sign(divided(size(a), by), a)
}

/// The quotient of two numbers that are not negative.
#[inline(always)]
pub fn divided(a: u128, by: u128) -> u128
    requires { 0 < by }
    ensures exact { result ≡ a / by }
    ensures positive { by ≤ a → 0 < result }
{
    if by == 1 {
        a
    } else if a <= WORD && by <= WORD {
        u128::from(a as u64 / by as u64)
    } else {
        a / by
    }
}

/// The quotient by a positive number, rounded down.
pub fn quotient_down(a: i128, by: u128) -> i128
    requires positive { 0 < by }
    requires below { by < 2 ^ 127 }
    requires size { nat_abs a < 2 ^ 127 }
    ensures exact { result ≡ int_div_euclid a (pos by) }
    ensures size { nat_abs result ≤ nat_abs a }
{
    a.div_euclid(by as i128)
}

/// The sum, where its size is below the limit.
#[inline(always)]
pub fn signed_sum(a: i128, b: i128, limit: u128) -> Option<i128>
    requires { limit ≤ 2 ^ 127 }
    ensures { SomeIff result (nat_abs (a +ℤ b) < limit) (a +ℤ b) }
{
    let exact = a.checked_add(b)?;
    if size(exact) < limit {
        Some(exact)
    } else {
        None
    }
}

/// The product with a number that is not negative, where its size is below the limit.
#[inline(always)]
pub fn scaled(a: i128, b: u128, limit: u128) -> Option<i128>
    requires factor { b < 2 ^ 127 }
    requires limit { limit ≤ 2 ^ 127 }
    ensures { SomeIff result (nat_abs (a *ℤ pos b) < limit) (a *ℤ pos b) }
{
    signed_product(a, b as i128, limit)
}

/// The product, where its size is below the limit.
#[inline(always)]
pub fn signed_product(a: i128, b: i128, limit: u128) -> Option<i128>
    requires { limit ≤ 2 ^ 127 }
    ensures { SomeIff result (nat_abs (a *ℤ b) < limit) (a *ℤ b) }
{
    let exact = checked_product(a, b)?;
    if size(exact) < limit {
        Some(exact)
    } else {
        None
    }
}

/// The product, where it is a number of 128 bits. That of two words always is.
#[inline(always)]
fn checked_product(a: i128, b: i128) -> Option<i128>
    ensures { SomeIff result (FitsSigned w128 (a *ℤ b)) (a *ℤ b) }
{
    if is_word(a) && is_word(b) {
        Some(product_of_words(a, b))
    } else {
        product_of_long(a, b)
    }
}

/// Whether a number is one of 64 bits.
#[inline(always)]
fn is_word(a: i128) -> bool
    ensures { IsTrue result → nat_abs a ≤ 2 ^ 63 }
{
    i64::try_from(a).is_ok()
}

/// The product of two words, in one multiplication.
#[inline(always)]
pub fn product_of_words(a: i128, b: i128) -> i128
    requires left { nat_abs a ≤ 2 ^ 63 }
    requires right { nat_abs b ≤ 2 ^ 63 }
    ensures fits { FitsSigned w128 (a *ℤ b) }
    ensures exact { result ≡ a *ℤ b }
{
    a * b
}

/// The same of numbers of any length. It is not inlined, so that the product of words stays short.
#[inline(never)]
fn product_of_long(a: i128, b: i128) -> Option<i128>
    ensures { SomeIff result (FitsSigned w128 (a *ℤ b)) (a *ℤ b) }
{
    a.checked_mul(b)
}

/// The product of two positive numbers, where it is below the limit.
#[inline(always)]
pub fn unsigned_product(a: u128, b: u128, limit: u128) -> Option<u128>
    requires positive { (0 < a) × (0 < b) }
    ensures product { SomeIff result (a * b < limit) (a * b) }
    ensures positive { IfSome result (λ p. 0 < p) }
{
    let exact = if a <= WORD && b <= WORD {
        a * b
    } else {
        a.checked_mul(b)?
    };
    if exact < limit { Some(exact) } else { None }
}
