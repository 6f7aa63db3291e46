//! A number that divides all numbers of a row of long words.

ghost use Rattle.std.specs.Prelude.{◌≡◌, ◌*◌, ◌/◌, ◌%◌, ◌<◌, IfSome};
ghost use Rattle.std.specs.Bool.{OnTrue};

use crate::long_words::long_factor;

/// A divisor above 0 with what makes a quotient that comes out even quick to find: by how many places to shift, and the inverse of
/// the odd part that is left, which multiplies in place of a division.
///
/// Each quotient that is found so is multiplied back and compared, so nothing is proved of how it is found.
#[derive(Clone, Copy)]
pub struct LongDivisor {
    /// The divisor.
    pub value: u128,
    /// How many zeros it ends with in binary.
    zeros: u32,
    /// The number by which the odd part gives 1, without what goes beyond 128 bits.
    inverse: u128,
}

impl LongDivisor {
    /// This divisor.
    pub fn of(value: u128) -> LongDivisor
        requires { 0 < value }
        ensures { result.value ≡ value }
    {
        let zeros = value.trailing_zeros();
        let odd = value.wrapping_shr(zeros);
        // Each turn doubles the number of places that are right, of which there are three at first.
        let mut inverse = odd;
        for _turn in 0..6 {
            inverse = inverse.wrapping_mul(2u128.wrapping_sub(odd.wrapping_mul(inverse)));
        }
        LongDivisor {
            value,
            zeros,
            inverse,
        }
    }

    /// The quotient, if it comes out even and is found.
    #[inline(always)]
    fn even_quotient(self, number: u128) -> Option<u128>
        ensures { IfSome result (λ quotient. quotient * self.value ≡ number) }
    {
        let guess = number.wrapping_shr(self.zeros).wrapping_mul(self.inverse);
        match guess.checked_mul(self.value) {
            Some(product) if product == number => Some(guess),
            _ => None,
        }
    }

    /// Whether it is found to divide a number.
    #[inline]
    pub fn divides(self, number: u128) -> bool
        requires { 0 < self.value }
        ensures { OnTrue result (number % self.value ≡ 0) }
    {
        match self.even_quotient(number) {
            Some(_) => true,
            None => false,
        }
    }

    /// The quotient of a number, rounded down.
    #[inline]
    pub fn quotient(self, number: u128) -> u128
        requires { 0 < self.value }
        ensures { result ≡ number / self.value }
    {
        match self.even_quotient(number) {
            Some(quotient) => quotient,
            None => number / self.value,
        }
    }

    /// A common divisor of it and a number.
    pub fn shared_with(self, number: u128) -> LongDivisor
        requires { 0 < self.value }
        ensures above { 0 < result.value }
        ensures of_self { self.value % result.value ≡ 0 }
        ensures of_number { number % result.value ≡ 0 }
    {
        if self.divides(number) {
            self
        } else {
            LongDivisor::of(long_factor(self.value, number))
        }
    }
}
