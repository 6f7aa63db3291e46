//! `a - b * c` on the triples that a line lists.

ghost use Rattle.std.specs.Prelude.{◌<◌, nat_abs, IsTrue};
ghost use Rattle.npp_frac.specs.Fits.{IsWidth, limit_of};

use crate::pass::cell;
use npp_frac::{Exact, is_zero};
use std::alloc::{AllocError, Global};

/// The numbers of one update of a tableau, `a - b * c`.
#[derive(Clone, Copy)]
pub struct Triple<N> {
    /// The number that is replaced, `a`.
    pub replaced: N,
    /// The factor of its row, `b`.
    pub factor: N,
    /// The number of the divided row, `c`.
    pub divided: N,
}

/// What is printed of a line.
#[derive(Clone, Copy)]
pub struct Replayed {
    /// The width in bits.
    pub width: u32,
    /// How many triples there are.
    pub count: usize,
    /// How often each is taken.
    pub repeat: u32,
    /// The sum of the numbers of all answers, which wraps around. A refusal adds 1.
    pub sum: i128,
}

/// Takes each triple of a list as often as its first word says, or None where the list is malformed.
pub fn replay<N: Exact>(alloc: Global, list: &str) -> Result<Option<Replayed>, AllocError> {
    let words: Vec<&str> = list.split_whitespace().collect(alloc)?;
    let Some((first, numbers)) = words.split_first() else {
        return Ok(None);
    };
    let Ok(repeat) = first.parse::<u32>() else {
        return Ok(None);
    };
    let Some(triples) = listed::<N>(alloc, numbers)? else {
        return Ok(None);
    };
    Ok(Some(Replayed {
        width: N::WIDTH,
        count: triples.len(),
        repeat,
        sum: repeated(&triples, repeat),
    }))
}

/// The triples of some words, six for each, or None where one is malformed.
fn listed<N: Exact>(alloc: Global, words: &[&str]) -> Result<Option<Vec<Triple<N>>>, AllocError> {
    let mut triples = Vec::new(alloc);
    for six in words.chunks(6) {
        let Some(triple) = triple_of(six) else {
            return Ok(None);
        };
        triples.push(triple)?;
    }
    Ok(Some(triples))
}

/// The triple of six words.
fn triple_of<N: Exact>(words: &[&str]) -> Option<Triple<N>> {
    match *words {
        [a, a_den, b, b_den, c, c_den] => Some(Triple {
            replaced: fraction(a, a_den)?,
            factor: fraction(b, b_den)?,
            divided: fraction(c, c_den)?,
        }),
        _ => None,
    }
}

/// The quotient of two whole numbers.
fn fraction<N: Exact>(num: &str, den: &str) -> Option<N> {
    let num: N = whole(num)?;
    let den: N = whole(den)?;
    if is_zero(den) {
        None
    } else {
        num.div(den).ok()
    }
}

/// The whole number of a text, where it fits the width.
fn whole<N: Exact>(text: &str) -> Option<N> {
    let value = text.parse::<i64>().ok()?;
    if fits(value, N::WIDTH) {
        Some(N::of_whole(value))
    } else {
        None
    }
}

/// Whether a whole number fits a width.
fn fits(value: i64, width: u32) -> bool
    requires { IsWidth width }
    ensures { IsTrue result → nat_abs value < limit_of width }
{
    match width {
        32 => value.unsigned_abs() < 1 << 31,
        64 => value.unsigned_abs() < 1 << 63,
        _ => true,
    }
}

/// The sum over all triples, taken again and again.
fn repeated<N: Exact>(triples: &[Triple<N>], repeat: u32) -> i128 {
    let mut sum = 0;
    for _ in 0..repeat {
        sum = once(triples, sum);
    }
    sum
}

/// The sum over all triples, added to another.
fn once<N: Exact>(triples: &[Triple<N>], start: i128) -> i128 {
    let mut sum = start;
    for triple in triples {
        sum = sum.wrapping_add(cell(triple.replaced, triple.factor, triple.divided));
    }
    sum
}
