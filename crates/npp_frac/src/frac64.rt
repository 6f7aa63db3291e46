//! Fractions of 64 bits.

use crate::reduced_words::ReducedWords;

/// A fraction whose numerator and denominator are below `2^63` in size.
#[derive(Clone, Copy, Debug, PartialEq, Eq)]
pub struct Frac64 {
    pub(crate) pair: ReducedWords,
}
