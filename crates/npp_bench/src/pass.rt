//! One pass over all triples of some fractions.

use npp_frac::Exact;
use std::alloc::{AllocError, Global};

/// The sum of the numbers of all `a - b * c`, which wraps around. A refusal adds 1.
pub fn pass<N: Exact>(alloc: Global, bits: u32, count: u32) -> Result<i128, AllocError> {
    let values = fractions::<N>(alloc, bits, count)?;
    let mut sum = 0;
    for a in &values {
        sum = row(*a, values.as_slice(), sum);
    }
    Ok(sum)
}

/// Fractions with numerators and denominators of a length in bits, or whole numbers at 0.
fn fractions<N: Exact>(alloc: Global, bits: u32, count: u32) -> Result<Vec<N>, AllocError> {
    let mut values = Vec::new(alloc);
    let mut seed = 1;
    for _ in 0..count {
        let num = next(seed);
        seed = next(num);
        if let Some(value) = fraction(num, seed, bits) {
            values.push(value)?;
        }
    }
    Ok(values)
}

/// A value from two random numbers.
fn fraction<N: Exact>(num: u32, den: u32, bits: u32) -> Option<N> {
    let length = if 0 < bits && bits < 20 { bits } else { 20 };
    let num = N::of_whole(i64::from((num >> 11) >> (20 - length)) - 1024);
    if bits == 0 {
        return Some(num);
    }
    let den = N::of_whole(i64::from((den >> 11) >> (20 - length)) + 1);
    if den.num() == 0 {
        return None;
    }
    num.div(den).ok()
}

/// The next number of a linear congruential generator.
fn next(seed: u32) -> u32 {
    seed.wrapping_mul(1_664_525).wrapping_add(1_013_904_223)
}

fn row<N: Exact>(a: N, values: &[N], start: i128) -> i128 {
    let mut sum = start;
    for b in values {
        sum = cells(a, *b, values, sum);
    }
    sum
}

fn cells<N: Exact>(a: N, b: N, values: &[N], start: i128) -> i128 {
    let mut sum = start;
    for c in values {
        sum = sum.wrapping_add(cell(a, b, *c));
    }
    sum
}

/// The numerator and the denominator of `a - b * c`, added, or 1 where it is refused. It is inlined, so that no call of it
/// takes a part of what is timed.
#[inline(always)]
pub fn cell<N: Exact>(a: N, b: N, c: N) -> i128 {
    let Ok(product) = b.mul(c) else {
        return 1;
    };
    let Ok(difference) = a.sub(product) else {
        return 1;
    };
    difference.num().wrapping_add(difference.den())
}
