//! From fractions to whole numbers over one denominator, and back.

ghost use Rattle.std.specs.Prelude.{◌≡◌, ◌≢◌, ℕ, ◌+◌, ◌-◌, ◌*◌, ◌*ℤ◌, ◌<◌, ◌≤◌, ◌^◌, length, map, pos, ◌-ℤ◌, nat_abs, true, IfSome};
ghost use Rattle.npp_frac.specs.Rational.{ratio, whole, ◌/ℚ◌};
ghost use Rattle.npp_frac.specs.Fits.{limit_of};
ghost use Rattle.npp_simplex.specs.CommonForm.{number_in, over, word_limit as word_limit_of, AreWithin, IsCommonForm, turned};
ghost use Rattle.npp_simplex.specs.Steps.{nonzero_columns};

use crate::words::{
    common_factor, divide_each, divisor_of, greatest_size, negate, scale, subtract,
};
use npp_frac::Exact;

/// The size below which the whole numbers of a row stay.
pub fn word_limit<N: Exact>() -> u64
    ensures { result ≡ word_limit_of N.WIDTH }
{
    if N::WIDTH == 32 { 1 << 31 } else { 1 << 63 }
}

/// The quotient of two whole numbers of the width.
pub fn whole_quotient<N: Exact>(number: i64, divisor: i64) -> N
    requires number { nat_abs number < limit_of N.WIDTH }
    requires divisor { nat_abs divisor < limit_of N.WIDTH }
    requires nonzero { divisor ≢ pos 0 }
    ensures { N.rational result ≡ whole number /ℚ whole divisor }
{
    let top = N::of_whole(number);
    match top.div(N::of_whole(divisor)) {
        Ok(quotient) => quotient,
        Err(_) => unreachable!(),
    }
}

/// How often a denominator holds a part of it.
#[inline(always)]
fn times_of(part: u128, denominator: u64) -> Option<u64>
    requires { 0 < part }
    ensures { IfSome result (λ t. t * part ≡ denominator) }
{
    if part == 1 {
        return Some(denominator);
    }
    if part == denominator as u128 {
        return Some(1);
    }
    if part > denominator as u128 {
        return None;
    }
    let times = denominator / part as u64;
    if times * part as u64 == denominator {
        Some(times)
    } else {
        None
    }
}

/// A number over a denominator, where that is a whole number below the limit.
#[inline(always)]
pub fn over_denominator<N: Exact>(number: N, denominator: u64, limit: u64) -> Option<i64>
    requires positive { 0 < denominator }
    requires limit { limit ≤ 2 ^ 63 }
    ensures value { IfSome result (λ x. ratio x denominator ≡ N.rational number) }
    ensures below { IfSome result (λ x. nat_abs x < limit) }
{
    let times = times_of(number.den() as u128, denominator)?;
    let number = number.num();
    if number.unsigned_abs() >= 1 << 63 {
        return None;
    }
    let product = number * times as i128;
    if product.unsigned_abs() < limit as u128 {
        Some(product as i64)
    } else {
        None
    }
}

/// A multiple of two numbers, where it is below the limit. It is the least, but nothing rests on that.
#[inline(always)]
pub fn common_multiple(first: u64, second: u64, limit: u64) -> Option<u64>
    requires positive { 0 < first }
    requires below { first < limit }
    ensures { IfSome result (λ m. (0 < m) × (m < limit)) }
{
    if second == 1 || second == first {
        Some(first)
    } else {
        computed_multiple(first, second, limit)
    }
}

/// The same by a common factor.
fn computed_multiple(first: u64, second: u64, limit: u64) -> Option<u64>
    requires { 0 < first }
    ensures { IfSome result (λ m. (0 < m) × (m < limit)) }
{
    let times = second / common_factor(first, second);
    let product = first as u128 * times as u128;
    if times == 0 || product >= limit as u128 {
        None
    } else {
        Some(product as u64)
    }
}

/// A denominator of all numbers of a row, where it is below the limit.
pub fn common_denominator<N: Exact>(fractions: &[N], limit: u64) -> Option<u64>
    requires { 1 < limit }
    ensures { IfSome result (λ d. (0 < d) × (d < limit)) }
{
    let mut denominator = 1;
    for j in 0..fractions.len() {
        let part = fractions[j].den();
        if part >= limit as i128 {
            return None;
        }
        match common_multiple(denominator, part as u64, limit) {
            Some(multiple) => denominator = multiple,
            None => return None,
        }
    }
    Some(denominator)
}

/// Writes the whole numbers of a row over a denominator into a list, and tells their greatest size, unless one of them is
/// not whole or not below the limit.
pub fn write_words<N: Exact>(
    fractions: &[N],
    denominator: u64,
    limit: u64,
    words: &mut [i64],
) -> Option<u64>
    requires positive { 0 < denominator }
    requires limit { limit ≤ 2 ^ 63 }
    requires some { 0 < limit }
    requires room { length words.old ≡ length fractions.now }
    ensures numbers { IfSome result (λ b. over denominator words.new ≡ map N.rational fractions.now) }
    ensures sizes { IfSome result (λ b. AreWithin b words.new) }
    ensures below { IfSome result (λ b. b < limit) }
{
    let mut greatest = 0;
    for j in 0..fractions.len() {
        match over_denominator(fractions[j], denominator, limit) {
            Some(word) => {
                words[j] = word;
                greatest = word.unsigned_abs().max(greatest);
            }
            None => return None,
        }
    }
    Some(greatest)
}

/// Writes fractions as whole numbers over one denominator, where those are below the limit.
pub fn gather_words<N: Exact>(fractions: &[N], limit: u64, words: &mut [i64]) -> Option<Sizes>
    requires limit { limit ≤ 2 ^ 63 }
    requires some { 1 < limit }
    requires room { length words.old ≡ length fractions.now }
    ensures numbers { IfSome result (λ s. over s.denominator words.new ≡ map N.rational fractions.now) }
    ensures form { IfSome result (λ s. IsCommonForm limit s.denominator s.bound words.new) }
{
    let denominator = common_denominator(fractions, limit)?;
    let bound = write_words(fractions, denominator, limit, words)?;
    Some(Sizes { bound, denominator })
}

/// Writes whole numbers over a denominator into a list of fractions.
pub fn write_fractions<N: Exact>(words: &[i64], sizes: Sizes, fractions: &mut [N])
    requires form { IsCommonForm (word_limit_of N.WIDTH) sizes.denominator sizes.bound words.now }
    requires room { length fractions.old ≡ length words.now }
    ensures { map N.rational fractions.new ≡ over sizes.denominator words.now }
{
    let below = sizes.denominator as i64;
    for j in 0..words.len() {
        fractions[j] = whole_quotient(words[j], below);
    }
}

/// What a row and a multiple of another one are multiplied by, so that the first loses its number in a column.
#[derive(Clone, Copy, Debug)]
pub struct Multiples {
    /// Of the row, above 0.
    pub own: u64,
    /// Of the other row.
    pub other: i64,
}

/// The multiples for a number of the row, and for the other row's denominator.
pub fn multiples_for(number: i64, denominator: u64) -> Multiples
    requires positive { 0 < denominator }
    requires below { denominator < 2 ^ 63 }
    requires number { nat_abs number < 2 ^ 63 }
    ensures own { 0 < result.own }
    ensures own_below { result.own < 2 ^ 63 }
    ensures other_below { nat_abs result.other < 2 ^ 63 }
    ensures clears { result.other *ℤ pos denominator ≡ number *ℤ pos result.own }
{
    if denominator == 1 {
        return Multiples {
            own: 1,
            other: number,
        };
    }
    let size = number.unsigned_abs();
    if size % denominator == 0 {
        return Multiples {
            own: 1,
            other: number / denominator as i64,
        };
    }
    let factor = common_factor(denominator, size);
    if factor == 1 {
        return Multiples {
            own: denominator,
            other: number,
        };
    }
    Multiples {
        own: denominator / factor,
        other: number / factor as i64,
    }
}

/// The bound of a row and its denominator.
#[derive(Clone, Copy, Debug)]
pub struct Sizes {
    /// No number of the row is longer.
    pub bound: u64,
    /// Its denominator.
    pub denominator: u64,
}

/// The sizes of a row after a pivot, where they stay below the limit.
pub fn sizes_after(own: Sizes, multiples: Multiples, other: u64, limit: u64) -> Option<Sizes>
    requires own { multiples.own < 2 ^ 63 }
    requires other { nat_abs multiples.other < 2 ^ 63 }
    ensures bound { IfSome result (λ s. s.bound ≡ own.bound * multiples.own + nat_abs multiples.other * other) }
    ensures denominator { IfSome result (λ s. s.denominator ≡ own.denominator * multiples.own) }
    ensures below { IfSome result (λ s. (s.bound < limit) × (s.denominator < limit)) }
{
    let scaled = own.bound as u128 * multiples.own as u128;
    let taken = multiples.other.unsigned_abs() as u128 * other as u128;
    let denominator = own.denominator as u128 * multiples.own as u128;
    if scaled + taken >= limit as u128 {
        return None;
    }
    if denominator >= limit as u128 {
        return None;
    }
    Some(Sizes {
        bound: (scaled + taken) as u64,
        denominator: denominator as u64,
    })
}

/// Takes a common factor out of the numbers of a row and their denominator, and tells the denominator that is left.
pub fn take_factor_out(numbers: &mut [i64], denominator: u64) -> u64
    requires positive { 0 < denominator }
    requires below { denominator < 2 ^ 63 }
    requires sizes { AreWithin (2 ^ 63 - 1) numbers.old }
    ensures same { over result numbers.new ≡ over denominator numbers.old }
    ensures positive { 0 < result }
    ensures at_most { result ≤ denominator }
    ensures sizes { (j : ℕ) → nat_abs (number_in numbers.new j) ≤ nat_abs (number_in numbers.old j) }
{
    let divisor = divisor_of(numbers, denominator);
    if divisor.value == 1 {
        return denominator;
    }
    divide_each(numbers, divisor);
    denominator / divisor.value
}

/// The same, with the greatest size of the numbers.
pub fn shorten_words(numbers: &mut [i64], denominator: u64) -> Sizes
    requires positive { 0 < denominator }
    requires below { denominator < 2 ^ 63 }
    requires sizes { AreWithin (2 ^ 63 - 1) numbers.old }
    ensures same { over result.denominator numbers.new ≡ over denominator numbers.old }
    ensures positive { 0 < result.denominator }
    ensures at_most { result.denominator ≤ denominator }
    ensures bound { AreWithin result.bound numbers.new }
    ensures least { (b : ℕ) → AreWithin b numbers.old → result.bound ≤ b }
{
    let denominator = take_factor_out(numbers, denominator);
    Sizes {
        bound: greatest_size(numbers),
        denominator,
    }
}

/// Multiplies a row and takes the multiple of another one from it. The columns are those at which the other row is not 0.
pub fn replace(numbers: &mut [i64], multiples: Multiples, other: &[i64], columns: &[u32])
    requires own { 0 < multiples.own }
    requires own_below { multiples.own < 2 ^ 63 }
    requires lengths { length other.now ≡ length numbers.old }
    requires columns { columns.now ≡ nonzero_columns (λ j. whole (number_in other.now j)) (length numbers.old) }
    requires sizes { (j : ℕ) → nat_abs (number_in numbers.old j) * multiples.own + nat_abs multiples.other * nat_abs (number_in other.now j) < 2 ^ 63 }
    ensures { (j : ℕ) → number_in numbers.new j ≡ (number_in numbers.old j *ℤ pos multiples.own) -ℤ (multiples.other *ℤ number_in other.now j) }
{
    scale(numbers, multiples.own);
    subtract(numbers, multiples.other, other, columns);
}

/// Turns the signs of a row where the divisor is below 0.
pub fn turn_signs(numbers: &mut [i64], divisor: i64)
    requires { AreWithin (2 ^ 63 - 1) numbers.old }
    ensures { (j : ℕ) → number_in numbers.new j ≡ turned (number_in numbers.old j) divisor }
{
    if divisor < 0 {
        negate(numbers);
    }
}
