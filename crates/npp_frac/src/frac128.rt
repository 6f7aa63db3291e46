//! Fractions of 128 bits.

use crate::reduced::Reduced;

/// A fraction whose numerator and denominator are below `2^127` in size.
#[derive(Clone, Copy, Debug, PartialEq, Eq)]
pub struct Frac128 {
    pub(crate) pair: Reduced,
}
