//! Rows of whole numbers, each of them a long word, of 128 bits.

ghost use Rattle.std.specs.Prelude.{◌≡◌, ℕ, ◌+◌, ◌-◌, int_div, ◌*◌, ◌%◌, ◌<◌, ◌≤◌, ◌^◌, IfOk, length, pos, ◌-ℤ◌, ◌*ℤ◌, nat_abs};
ghost use Rattle.npp_frac.specs.Rational.{whole};
ghost use Rattle.npp_simplex.specs.CommonForm.{number_in, AreWithin};
ghost use Rattle.npp_simplex.specs.Steps.{nonzero_columns};

use crate::long_divisor::LongDivisor;
use crate::words::common_factor;
use npp_frac::Memory;

/// A common factor of two numbers. It is the greatest, but nothing rests on that.
pub fn long_factor(first: u128, second: u128) -> u128
    requires { 0 < first }
    ensures above { 0 < result }
    ensures of_first { first % result ≡ 0 }
    ensures of_second { second % result ≡ 0 }
{
    if first < 1 << 64 && second < 1 << 64 {
        return common_factor(first as u64, second as u64) as u128;
    }
    let mut x = first;
    let mut y = if second < first {
        second
    } else {
        second % first
    };
    while y != 0 {
        let rest = x % y;
        x = y;
        y = rest;
    }
    x
}

/// A common divisor of a denominator and the numbers of a row.
pub fn divisor_of_long(numbers: &[i128], denominator: u128) -> LongDivisor
    requires { 0 < denominator }
    ensures above { 0 < result.value }
    ensures of_denominator { denominator % result.value ≡ 0 }
    ensures of_numbers { (j : ℕ) → nat_abs (number_in numbers.now j) % result.value ≡ 0 }
{
    let mut divisor = LongDivisor::of(denominator);
    for j in 0..numbers.len() {
        if divisor.value == 1 {
            return divisor;
        }
        divisor = divisor.shared_with(numbers[j].unsigned_abs());
    }
    divisor
}

/// The greatest size of some numbers.
pub fn greatest_long_size(numbers: &[i128]) -> u128
    ensures bound { AreWithin result numbers.now }
    ensures least { (b : ℕ) → AreWithin b numbers.now → result ≤ b }
{
    let mut greatest = 0;
    for j in 0..numbers.len() {
        greatest = numbers[j].unsigned_abs().max(greatest);
    }
    greatest
}

/// Multiplies each number.
pub fn scale_long(numbers: &mut [i128], factor: u128)
    requires positive { 0 < factor }
    requires below { factor < 2 ^ 127 }
    requires sizes { (j : ℕ) → nat_abs (number_in numbers.old j) * factor < 2 ^ 127 }
    ensures { (j : ℕ) → number_in numbers.new j ≡ number_in numbers.old j *ℤ pos factor }
{
    if factor == 1 {
        return;
    }
    let by = factor as i128;
    for j in 0..numbers.len() {
        numbers[j] = numbers[j] * by;
    }
}

/// The quotient by a divisor, rounded toward zero.
#[inline(always)]
fn truncated(number: i128, by: LongDivisor) -> i128
    requires positive { 0 < by.value }
    requires size { nat_abs number < 2 ^ 127 }
    ensures { result ≡ int_div number (pos by.value) }
{
    let quotient = by.quotient(number.unsigned_abs()) as i128;
    if number < 0 { -quotient } else { quotient }
}

/// Divides each number.
pub fn divide_each_long(numbers: &mut [i128], divisor: LongDivisor)
    requires positive { 0 < divisor.value }
    requires sizes { AreWithin (2 ^ 127 - 1) numbers.old }
    ensures { (j : ℕ) → number_in numbers.new j ≡ int_div (number_in numbers.old j) (pos divisor.value) }
{
    for j in 0..numbers.len() {
        numbers[j] = truncated(numbers[j], divisor);
    }
}

/// Takes a multiple of another row from a row. The columns are those at which the other row is not 0.
#[inline(never)]
pub fn subtract_long(numbers: &mut [i128], factor: i128, other: &[i128], columns: &[u32])
    requires lengths { length other.now ≡ length numbers.old }
    requires columns { columns.now ≡ nonzero_columns (λ j. whole (number_in other.now j)) (length numbers.old) }
    requires sizes { (j : ℕ) → nat_abs (number_in numbers.old j) + nat_abs factor * nat_abs (number_in other.now j) < 2 ^ 127 }
    ensures { (j : ℕ) → number_in numbers.new j ≡ number_in numbers.old j -ℤ factor *ℤ number_in other.now j }
{
    for s in 0..columns.len() {
        let j = columns[s] as usize;
        numbers[j] = numbers[j] - factor * other[j];
    }
}

/// The same with a row of words of 64 bits.
#[inline(never)]
pub fn subtract_words(numbers: &mut [i128], factor: i128, other: &[i64], columns: &[u32])
    requires lengths { length other.now ≡ length numbers.old }
    requires columns { columns.now ≡ nonzero_columns (λ j. whole (number_in other.now j)) (length numbers.old) }
    requires sizes { (j : ℕ) → nat_abs (number_in numbers.old j) + nat_abs factor * nat_abs (number_in other.now j) < 2 ^ 127 }
    ensures { (j : ℕ) → number_in numbers.new j ≡ number_in numbers.old j -ℤ factor *ℤ number_in other.now j }
{
    for s in 0..columns.len() {
        let j = columns[s] as usize;
        numbers[j] = numbers[j] - factor * other[j] as i128;
    }
}

/// A list of zeros, in the memory of another list.
pub fn zero_long_words(room: Vec<i128>, count: usize) -> Result<Vec<i128>, Memory>
    ensures { IfOk result (λ list. length list.items ≡ count) }
{
    let mut list = room;
    list.clear();
    list.reserve(count)?;
    for _i in 0..count {
        match list.push(0) {
            Ok(()) => {}
            Err(_) => return Err(Memory),
        }
    }
    Ok(list)
}

/// Writes words of 64 bits into long ones.
pub fn lengthen(words: &[i64], numbers: &mut [i128])
    requires { length numbers.old ≡ length words.now }
    ensures { numbers.new ≡ words.now }
{
    for j in 0..words.len() {
        numbers[j] = words[j] as i128;
    }
}

/// Writes long words that fit into words of 64 bits.
pub fn cut(numbers: &[i128], words: &mut [i64])
    requires lengths { length words.old ≡ length numbers.now }
    requires sizes { AreWithin (2 ^ 63 - 1) numbers.now }
    ensures { words.new ≡ numbers.now }
{
    for j in 0..numbers.len() {
        words[j] = numbers[j] as i64;
    }
}
