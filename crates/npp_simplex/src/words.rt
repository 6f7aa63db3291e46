//! Rows of whole numbers, each of them a word.

ghost use Rattle.std.specs.Prelude.{◌≡◌, ℕ, ◌+◌, ◌-◌, int_div, ◌*◌, ◌%◌, ◌<◌, ◌≤◌, ◌^◌, IfOk, length, pos, ◌-ℤ◌, ◌*ℤ◌, neg_ℤ, nat_abs};
ghost use Rattle.npp_frac.specs.Rational.{whole};
ghost use Rattle.npp_simplex.specs.CommonForm.{number_in, AreWithin};
ghost use Rattle.npp_simplex.specs.Steps.{nonzero_columns};

use crate::word_divisor::WordDivisor;
use npp_frac::Memory;

/// A common factor of two numbers. It is the greatest, but nothing rests on that.
pub fn common_factor(first: u64, second: u64) -> u64
    requires { 0 < first }
    ensures above { 0 < result }
    ensures of_first { first % result ≡ 0 }
    ensures of_second { second % result ≡ 0 }
{
    let mut x = first;
    let mut y = if second < first {
        second
    } else {
        second % first
    };
    while y != 0 {
        let rest = x % y;
        x = y;
        y = rest;
    }
    x
}

/// A common divisor of a denominator and the numbers of a row.
pub fn divisor_of(numbers: &[i64], denominator: u64) -> WordDivisor
    requires { 0 < denominator }
    ensures above { 0 < result.value }
    ensures of_denominator { denominator % result.value ≡ 0 }
    ensures of_numbers { (j : ℕ) → nat_abs (number_in numbers.now j) % result.value ≡ 0 }
{
    let mut divisor = WordDivisor::of(denominator);
    for j in 0..numbers.len() {
        if divisor.value == 1 {
            return divisor;
        }
        divisor = divisor.shared_with(numbers[j].unsigned_abs());
    }
    divisor
}

/// The greatest size of some numbers.
pub fn greatest_size(numbers: &[i64]) -> u64
    ensures bound { AreWithin result numbers.now }
    ensures least { (b : ℕ) → AreWithin b numbers.now → result ≤ b }
{
    let mut greatest = 0;
    for j in 0..numbers.len() {
        greatest = numbers[j].unsigned_abs().max(greatest);
    }
    greatest
}

/// Multiplies each number.
pub fn scale(numbers: &mut [i64], factor: u64)
    requires positive { 0 < factor }
    requires below { factor < 2 ^ 63 }
    requires sizes { (j : ℕ) → nat_abs (number_in numbers.old j) * factor < 2 ^ 63 }
    ensures { (j : ℕ) → number_in numbers.new j ≡ number_in numbers.old j *ℤ pos factor }
{
    if factor == 1 {
        return;
    }
    let by = factor as i64;
    for j in 0..numbers.len() {
        numbers[j] = numbers[j] * by;
    }
}

/// The quotient by a divisor, rounded toward zero.
#[inline(always)]
fn truncated(number: i64, by: WordDivisor) -> i64
    requires positive { 0 < by.value }
    requires size { nat_abs number < 2 ^ 63 }
    ensures { result ≡ int_div number (pos by.value) }
{
    let quotient = by.quotient(number.unsigned_abs()) as i64;
    if number < 0 { -quotient } else { quotient }
}

/// Divides each number.
pub fn divide_each(numbers: &mut [i64], divisor: WordDivisor)
    requires positive { 0 < divisor.value }
    requires sizes { AreWithin (2 ^ 63 - 1) numbers.old }
    ensures { (j : ℕ) → number_in numbers.new j ≡ int_div (number_in numbers.old j) (pos divisor.value) }
{
    for j in 0..numbers.len() {
        numbers[j] = truncated(numbers[j], divisor);
    }
}

/// Turns the sign of each number.
pub fn negate(numbers: &mut [i64])
    requires { AreWithin (2 ^ 63 - 1) numbers.old }
    ensures { (j : ℕ) → number_in numbers.new j ≡ neg_ℤ (number_in numbers.old j) }
{
    for j in 0..numbers.len() {
        numbers[j] = -numbers[j];
    }
}

/// Takes a multiple of another row from a row. The columns are those at which the other row is not 0.
#[inline(never)]
pub fn subtract(numbers: &mut [i64], factor: i64, other: &[i64], columns: &[u32])
    requires lengths { length other.now ≡ length numbers.old }
    requires columns { columns.now ≡ nonzero_columns (λ j. whole (number_in other.now j)) (length numbers.old) }
    requires sizes { (j : ℕ) → nat_abs (number_in numbers.old j) + nat_abs factor * nat_abs (number_in other.now j) < 2 ^ 63 }
    ensures { (j : ℕ) → number_in numbers.new j ≡ number_in numbers.old j -ℤ factor *ℤ number_in other.now j }
{
    for s in 0..columns.len() {
        let j = columns[s] as usize;
        numbers[j] = numbers[j] - factor * other[j];
    }
}

/// A list of zeros, in the memory of another list.
pub fn zero_words(room: Vec<i64>, count: usize) -> Result<Vec<i64>, Memory>
    ensures { IfOk result (λ list. length list.items ≡ count) }
{
    let mut list = room;
    list.clear();
    list.reserve(count)?;
    for _i in 0..count {
        match list.push(0) {
            Ok(()) => {}
            Err(_) => return Err(Memory),
        }
    }
    Ok(list)
}

/// Sets each number to 0.
pub fn clear_words(numbers: &mut [i64])
    ensures { (j : ℕ) → number_in numbers.new j ≡ pos 0 }
{
    for j in 0..numbers.len() {
        numbers[j] = 0;
    }
}
