//! The greatest common divisor, by Euclid's algorithm and for words by the binary algorithm.

ghost use Rattle.std.specs.Prelude.{◌≡◌, ◌≢◌, ◌+◌, ◌%◌, ◌<◌, ◌≤◌, min};
ghost use Rattle.npp_frac.specs.Gcd.{gcd as gcd_of};

use crate::numbers::WORD;

/// The greatest common divisor.
#[inline(always)]
pub fn gcd(a: u128, b: u128) -> u128
    ensures exact { result ≡ gcd_of a b }
    ensures positive { 0 < b → 0 < result }
    ensures at_most { 0 < b → result ≤ b }
{
    gcd_by_length(a, b)
}

/// 1 is answered in place, and words have an algorithm of their own, which is much faster. A denominator, mostly the
/// second number, is 1 more often than a numerator.
#[inline(always)]
fn gcd_by_length(a: u128, b: u128) -> u128
    ensures { result ≡ gcd_of a b }
{
    if b == 1 {
        return 1;
    }
    if a == 1 {
        return 1;
    }
    if a <= WORD && b <= WORD {
        u128::from(gcd_of_words(a as u64, b as u64))
    } else {
        gcd_of_long(a, b)
    }
}

/// The greatest common divisor of words.
#[inline(always)]
pub fn word_gcd(a: u64, b: u64) -> u64
    ensures exact { result ≡ gcd_of a b }
    ensures positive { 0 < b → 0 < result }
    ensures at_most { 0 < b → result ≤ b }
{
    short_word_gcd(a, b)
}

/// 1 is answered in place, as above.
#[inline(always)]
fn short_word_gcd(a: u64, b: u64) -> u64
    ensures { result ≡ gcd_of a b }
{
    if b == 1 {
        return 1;
    }
    if a == 1 {
        return 1;
    }
    gcd_of_words(a, b)
}

/// The binary algorithm: the factors 2 that both numbers have, times the divisor of their odd parts.
#[inline(never)]
fn gcd_of_words(a: u64, b: u64) -> u64
    ensures { result ≡ gcd_of a b }
{
    let (x, y) = nearer(a, b);
    if x == 0 {
        return y;
    }
    if y == 0 {
        return x;
    }
    let x_zeros = x.trailing_zeros();
    let y_zeros = y.trailing_zeros();
    gcd_of_odd(x >> x_zeros, y >> y_zeros) << x_zeros.min(y_zeros)
}

/// Two words with the same common divisors. Where one is over 64 times the other, a division takes less time than
/// the turns that it saves.
#[inline(always)]
fn nearer(a: u64, b: u64) -> (u64, u64)
    ensures { gcd_of result.0 result.1 ≡ gcd_of a b }
{
    if b < a >> 6 && b != 0 {
        (b, a % b)
    } else if a < b >> 6 && a != 0 {
        (a, b % a)
    } else {
        (a, b)
    }
}

/// The lesser of two odd numbers stays, and the odd part of their difference takes the place of the greater.
#[inline(always)]
fn gcd_of_odd(a: u64, b: u64) -> u64
    requires a_odd { a % 2 ≡ 1 }
    requires b_odd { b % 2 ≡ 1 }
    ensures { result ≡ gcd_of a b }
{
    let mut x = a;
    let mut y = b;
    while x != y {
        let part = odd_difference(x, y);
        y = x.min(y);
        x = part;
    }
    x
}

/// The odd part of the difference of two odd numbers.
#[inline(always)]
fn odd_difference(x: u64, y: u64) -> u64
    requires x_odd { x % 2 ≡ 1 }
    requires y_odd { y % 2 ≡ 1 }
    requires other { x ≢ y }
    ensures odd { result % 2 ≡ 1 }
    ensures less { result + min x y < x + y }
    ensures same { gcd_of result (min x y) ≡ gcd_of x y }
{
    // Where this wraps, it is 2^64 less the distance, and has as many zeros.
    let difference = x.wrapping_sub(y);
    let distance = if x < y { y - x } else { difference };
    distance >> difference.trailing_zeros()
}

/// Euclid's algorithm, until one number is a word.
fn gcd_of_long(a: u128, b: u128) -> u128
    ensures { result ≡ gcd_of a b }
{
    let mut x = a;
    let mut y = b;
    while WORD < y {
        let rest = x % y;
        x = y;
        y = rest;
    }
    if y == 0 {
        x
    } else {
        u128::from(gcd_of_words(y as u64, (x % y) as u64))
    }
}
