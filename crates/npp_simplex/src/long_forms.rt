//! Rows of long words over one denominator.

ghost use Rattle.std.specs.Prelude.{◌≡◌, ◌≢◌, ℕ, ◌+◌, ◌-◌, ◌*◌, ◌*ℤ◌, ◌<◌, ◌≤◌, ◌^◌, length, map, pos, ◌+ℤ◌, ◌-ℤ◌, nat_abs, true, IfSome};
ghost use Rattle.npp_frac.specs.Rational.{whole, ◌/ℚ◌};
ghost use Rattle.npp_frac.specs.Fits.{limit_of};
ghost use Rattle.npp_simplex.specs.CommonForm.{number_in, over, line_of, AreWithin, IsCommonForm};
ghost use Rattle.npp_simplex.specs.Steps.{nonzero_columns};

use crate::forms::Sizes;
use crate::long_words::{
    cut, divide_each_long, divisor_of_long, greatest_long_size, long_factor, scale_long,
    subtract_long, subtract_words,
};
use npp_frac::Exact;

/// The size below which the numerators and denominators of the width stay.
pub fn long_limit<N: Exact>() -> u128
    ensures { result ≡ limit_of N.WIDTH }
{
    if N::WIDTH == 32 {
        1 << 31
    } else if N::WIDTH == 64 {
        1 << 63
    } else {
        1 << 127
    }
}

/// A whole number times 2^62, and a rest more.
pub fn with_rest<N: Exact>(high: i128, value: N, rest: i64) -> N
    requires value { N.rational value ≡ whole high }
    requires limit { 2 ^ 62 < limit_of N.WIDTH }
    requires product { nat_abs (high *ℤ pos (2 ^ 62)) < limit_of N.WIDTH }
    requires rest { nat_abs rest < limit_of N.WIDTH }
    requires sum { nat_abs ((high *ℤ pos (2 ^ 62)) +ℤ rest) < limit_of N.WIDTH }
    ensures { N.rational result ≡ whole ((high *ℤ pos (2 ^ 62)) +ℤ rest) }
{
    let _ = high;
    let Ok(product) = value.mul(N::of_whole(1 << 62)) else {
        unreachable!()
    };
    match product.add(N::of_whole(rest)) {
        Ok(sum) => sum,
        Err(_) => unreachable!(),
    }
}

/// A whole number of the width.
pub fn of_long<N: Exact>(number: i128) -> N
    requires { nat_abs number < limit_of N.WIDTH }
    ensures { N.rational result ≡ whole number }
{
    if number.unsigned_abs() < 1 << 62 {
        return N::of_whole(number as i64);
    }
    let high = number / (1 << 62);
    let rest = (number % (1 << 62)) as i64;
    let first = high / (1 << 62);
    let second = (high % (1 << 62)) as i64;
    let value = with_rest(first, N::of_whole(first as i64), second);
    with_rest(high, value, rest)
}

/// The quotient of two whole numbers of the width.
pub fn long_quotient<N: Exact>(number: i128, divisor: i128) -> N
    requires number { nat_abs number < limit_of N.WIDTH }
    requires divisor { nat_abs divisor < limit_of N.WIDTH }
    requires nonzero { divisor ≢ pos 0 }
    ensures { N.rational result ≡ whole number /ℚ whole divisor }
{
    let top = of_long::<N>(number);
    match top.div(of_long::<N>(divisor)) {
        Ok(quotient) => quotient,
        Err(_) => unreachable!(),
    }
}

/// The bound of a row of long words and its denominator.
#[derive(Clone, Copy, Debug)]
pub struct LongSizes {
    /// No number of the row is longer.
    pub bound: u128,
    /// Its denominator.
    pub denominator: u128,
}

/// Writes long words over a denominator into a list of fractions.
pub fn write_long_fractions<N: Exact>(words: &[i128], sizes: LongSizes, fractions: &mut [N])
    requires form { IsCommonForm (limit_of N.WIDTH) sizes.denominator sizes.bound words.now }
    requires room { length fractions.old ≡ length words.now }
    ensures { map N.rational fractions.new ≡ over sizes.denominator words.now }
{
    let below = sizes.denominator as i128;
    for j in 0..words.len() {
        fractions[j] = long_quotient(words[j], below);
    }
}

/// Writes the numbers of a row into its list of fractions, unless they are there.
pub fn spread_long<N: Exact>(is_whole: bool, sizes: LongSizes, words: &[i128], fractions: &mut [N])
    requires room { is_whole ≡ true → length fractions.old ≡ length words.now }
    requires form { is_whole ≡ true → IsCommonForm (limit_of N.WIDTH) sizes.denominator sizes.bound words.now }
    ensures { map N.rational fractions.new ≡ line_of is_whole sizes.denominator words.now (map N.rational fractions.old) }
{
    if is_whole {
        write_long_fractions(words, sizes, fractions);
    }
}

/// Writes long words over a denominator as words of 64 bits, where they fit.
pub fn cut_words(numbers: &[i128], sizes: LongSizes, limit: u64, words: &mut [i64]) -> Option<Sizes>
    requires sizes { AreWithin sizes.bound numbers.now }
    requires positive { 0 < sizes.denominator }
    requires limit { limit ≤ 2 ^ 63 }
    requires room { length words.old ≡ length numbers.now }
    ensures numbers { IfSome result (λ s. words.new ≡ numbers.now) }
    ensures denominator { IfSome result (λ s. s.denominator ≡ sizes.denominator) }
    ensures form { IfSome result (λ s. IsCommonForm limit s.denominator s.bound words.new) }
{
    if sizes.bound >= limit as u128 {
        return None;
    }
    if sizes.denominator >= limit as u128 {
        return None;
    }
    cut(numbers, words);
    Some(Sizes {
        bound: sizes.bound as u64,
        denominator: sizes.denominator as u64,
    })
}

/// What a row and a multiple of another one are multiplied by, so that the first loses its number in a column.
#[derive(Clone, Copy, Debug)]
pub struct LongMultiples {
    /// Of the row, above 0.
    pub own: u128,
    /// Of the other row.
    pub other: i128,
}

/// The multiples for a number of the row, and for the other row's denominator.
pub fn long_multiples_for(number: i128, denominator: u128) -> LongMultiples
    requires positive { 0 < denominator }
    requires below { denominator < 2 ^ 127 }
    requires number { nat_abs number < 2 ^ 127 }
    ensures own { 0 < result.own }
    ensures own_below { result.own < 2 ^ 127 }
    ensures other_below { nat_abs result.other < 2 ^ 127 }
    ensures clears { result.other *ℤ pos denominator ≡ number *ℤ pos result.own }
{
    if denominator == 1 {
        return LongMultiples {
            own: 1,
            other: number,
        };
    }
    let factor = long_factor(denominator, number.unsigned_abs());
    if factor == 1 {
        return LongMultiples {
            own: denominator,
            other: number,
        };
    }
    LongMultiples {
        own: denominator / factor,
        other: number / factor as i128,
    }
}

/// The sizes of a row after a pivot, where they stay below the limit.
pub fn long_sizes_after(
    own: LongSizes,
    multiples: LongMultiples,
    other: u128,
    limit: u128,
) -> Option<LongSizes>
    ensures bound { IfSome result (λ s. s.bound ≡ own.bound * multiples.own + nat_abs multiples.other * other) }
    ensures denominator { IfSome result (λ s. s.denominator ≡ own.denominator * multiples.own) }
    ensures below { IfSome result (λ s. (s.bound < limit) × (s.denominator < limit)) }
{
    let scaled = own.bound.checked_mul(multiples.own)?;
    let taken = multiples.other.unsigned_abs().checked_mul(other)?;
    let bound = scaled.checked_add(taken)?;
    let denominator = own.denominator.checked_mul(multiples.own)?;
    if bound >= limit || denominator >= limit {
        return None;
    }
    Some(LongSizes { bound, denominator })
}

/// Takes a common factor out of the numbers of a row and their denominator, and tells the denominator that is left.
pub fn take_long_factor_out(numbers: &mut [i128], denominator: u128) -> u128
    requires positive { 0 < denominator }
    requires below { denominator < 2 ^ 127 }
    requires sizes { AreWithin (2 ^ 127 - 1) numbers.old }
    ensures same { over result numbers.new ≡ over denominator numbers.old }
    ensures positive { 0 < result }
    ensures at_most { result ≤ denominator }
    ensures sizes { (j : ℕ) → nat_abs (number_in numbers.new j) ≤ nat_abs (number_in numbers.old j) }
{
    let divisor = divisor_of_long(numbers, denominator);
    if divisor.value == 1 {
        return denominator;
    }
    divide_each_long(numbers, divisor);
    denominator / divisor.value
}

/// The same, with the greatest size of the numbers.
pub fn shorten_long_words(numbers: &mut [i128], denominator: u128) -> LongSizes
    requires positive { 0 < denominator }
    requires below { denominator < 2 ^ 127 }
    requires sizes { AreWithin (2 ^ 127 - 1) numbers.old }
    ensures same { over result.denominator numbers.new ≡ over denominator numbers.old }
    ensures positive { 0 < result.denominator }
    ensures at_most { result.denominator ≤ denominator }
    ensures bound { AreWithin result.bound numbers.new }
    ensures least { (b : ℕ) → AreWithin b numbers.old → result.bound ≤ b }
{
    let denominator = take_long_factor_out(numbers, denominator);
    LongSizes {
        bound: greatest_long_size(numbers),
        denominator,
    }
}

/// Multiplies a row and takes the multiple of another one from it. The columns are those at which the other row is not 0.
pub fn replace_by_long(
    numbers: &mut [i128],
    multiples: LongMultiples,
    other: &[i128],
    columns: &[u32],
)
    requires own { 0 < multiples.own }
    requires own_below { multiples.own < 2 ^ 127 }
    requires lengths { length other.now ≡ length numbers.old }
    requires columns { columns.now ≡ nonzero_columns (λ j. whole (number_in other.now j)) (length numbers.old) }
    requires sizes { (j : ℕ) → nat_abs (number_in numbers.old j) * multiples.own + nat_abs multiples.other * nat_abs (number_in other.now j) < 2 ^ 127 }
    ensures { (j : ℕ) → number_in numbers.new j ≡ (number_in numbers.old j *ℤ pos multiples.own) -ℤ (multiples.other *ℤ number_in other.now j) }
{
    scale_long(numbers, multiples.own);
    subtract_long(numbers, multiples.other, other, columns);
}

/// The same with a row of words of 64 bits.
pub fn replace_by_words(
    numbers: &mut [i128],
    multiples: LongMultiples,
    other: &[i64],
    columns: &[u32],
)
    requires own { 0 < multiples.own }
    requires own_below { multiples.own < 2 ^ 127 }
    requires lengths { length other.now ≡ length numbers.old }
    requires columns { columns.now ≡ nonzero_columns (λ j. whole (number_in other.now j)) (length numbers.old) }
    requires sizes { (j : ℕ) → nat_abs (number_in numbers.old j) * multiples.own + nat_abs multiples.other * nat_abs (number_in other.now j) < 2 ^ 127 }
    ensures { (j : ℕ) → number_in numbers.new j ≡ (number_in numbers.old j *ℤ pos multiples.own) -ℤ (multiples.other *ℤ number_in other.now j) }
{
    scale_long(numbers, multiples.own);
    subtract_words(numbers, multiples.other, other, columns);
}
