//! The order of fractions, by products of twice their length.

ghost use Rattle.std.specs.Prelude.{◌≡◌, ◌<◌, ◌^◌, ◌+◌, ◌*◌, pos, ◌*ℤ◌, nat_abs};
ghost use Rattle.std.specs.Ordering.{nat_cmp};
ghost use Rattle.npp_frac.specs.Rational.{rational_cmp};
ghost use Rattle.npp_frac.specs.Value.{value_of, value_of_words};

use crate::numbers::size;
use crate::reduced::Reduced;
use crate::reduced_words::ReducedWords;
use std::cmp::Ordering;

/// The product of two numbers of 128 bits, as its high and its low half.
pub fn wide_product(a: u128, b: u128) -> (u128, u128)
    ensures product { result.0 * 2 ^ 128 + result.1 ≡ a * b }
    ensures low { result.1 < 2 ^ 128 }
{
    const HALF: u128 = 1 << 64;
    let low = (a % HALF) * (b % HALF);
    let first = (a / HALF) * (b % HALF);
    let second = (a % HALF) * (b / HALF);
    let high = (a / HALF) * (b / HALF);
    let middle = low / HALF + first % HALF + second % HALF;
    (
        high + first / HALF + second / HALF + middle / HALF,
        (middle % HALF) * HALF + low % HALF,
    )
}

/// The order of two products.
pub fn compare_products(a: u128, b: u128, c: u128, d: u128) -> Ordering
    ensures { result ≡ nat_cmp (a * b) (c * d) }
{
    let left = wide_product(a, b);
    let right = wide_product(c, d);
    if left.0 == right.0 {
        left.1.cmp(&right.1)
    } else {
        left.0.cmp(&right.0)
    }
}

/// The order of two fractions.
#[tactic(auto, unfolding(crate::specs::Rational::rational_cmp))]
pub fn compare(a: Reduced, b: Reduced) -> Ordering
    ensures { result ≡ rational_cmp (value_of a) (value_of b) }
{
    if a.num < 0 {
        if b.num < 0 {
            compare_products(size(b.num), a.den, size(a.num), b.den)
        } else {
            Ordering::Less
        }
    } else if b.num < 0 {
        Ordering::Greater
    } else {
        compare_products(size(a.num), b.den, size(b.num), a.den)
    }
}

/// The product of a word and of a positive one, in a long number.
#[inline(always)]
fn long_product(a: i64, b: u64) -> i128
    requires a { nat_abs a < 2 ^ 63 }
    requires b { b < 2 ^ 63 }
    ensures { result ≡ a *ℤ pos b }
{
    i128::from(a) * i128::from(b)
}

/// The order of two fractions of words.
#[tactic(auto, unfolding(crate::specs::Rational::rational_cmp))]
#[inline(always)]
pub fn compare_words(a: ReducedWords, b: ReducedWords) -> Ordering
    ensures { result ≡ rational_cmp (value_of_words a) (value_of_words b) }
{
    let left = long_product(a.num, b.den);
    let right = long_product(b.num, a.den);
    left.cmp(&right)
}
