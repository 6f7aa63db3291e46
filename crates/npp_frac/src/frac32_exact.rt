//! Fractions of 32 bits are exact.

ghost use Rattle.std.specs.Prelude.{◌≡◌, ◌^◌};
ghost use Rattle.npp_frac.specs.Fits.{FitsBelow};
ghost use Rattle.npp_frac.specs.Narrow.{value_of_32};
ghost use Rattle.npp_frac.specs.NarrowLaws.{width_32, fits_32, same_32};
ghost use Rattle.npp_frac.specs.Value.{value_of_words};

use crate::comparison::compare_words;
use crate::exact::Exact;
use crate::frac32::Frac32;
use crate::frac128::Frac128;
use crate::reduced_words::ReducedWords;
use crate::refusal::{Op, Overflow};
use crate::word_arithmetic;
use std::cmp::Ordering;

const LIMIT: u64 = 1 << 31;

impl Frac32 {
    /// The pair in words of 64 bits, on which the arithmetic works.
    #[inline(always)]
    pub(crate) fn words(self) -> ReducedWords
        ensures value { value_of_words result ≡ value_of_32 self }
        ensures below { FitsBelow (2 ^ 31) (value_of_words result) }
    {
        ReducedWords {
            num: i64::from(self.num),
            den: u64::from(self.den),
        }
    }

    /// The fraction of a pair whose numbers fit.
    #[inline(always)]
    pub(crate) fn of_words(pair: ReducedWords) -> Frac32
        requires { FitsBelow (2 ^ 31) (value_of_words pair) }
        ensures { value_of_32 result ≡ value_of_words pair }
    {
        Frac32 {
            num: pair.num as i32,
            den: pair.den as u32,
        }
    }
}

impl Exact for Frac32 {
    ghost WIDTH = { 32 };

    ghost rational = { value_of_32 };

    ghost width = { width_32 };

    ghost fits = { fits_32 };

    ghost same = { same_32 };

    const WIDTH: u32 = 32;

    fn of_whole(value: i64) -> Frac32 {
        Frac32::of_words(word_arithmetic::of_whole(value))
    }

    #[inline(always)]
    fn add(self, other: Frac32) -> Result<Frac32, Overflow<Frac32>> {
        match word_arithmetic::add(self.words(), other.words(), LIMIT) {
            Some(pair) => Ok(Frac32::of_words(pair)),
            None => Err(Overflow {
                op: Op::Add,
                left: self,
                right: other,
            }),
        }
    }

    #[inline(always)]
    fn sub(self, other: Frac32) -> Result<Frac32, Overflow<Frac32>> {
        match word_arithmetic::sub(self.words(), other.words(), LIMIT) {
            Some(pair) => Ok(Frac32::of_words(pair)),
            None => Err(Overflow {
                op: Op::Sub,
                left: self,
                right: other,
            }),
        }
    }

    #[inline(always)]
    fn mul(self, other: Frac32) -> Result<Frac32, Overflow<Frac32>> {
        match word_arithmetic::mul(self.words(), other.words(), LIMIT) {
            Some(pair) => Ok(Frac32::of_words(pair)),
            None => Err(Overflow {
                op: Op::Mul,
                left: self,
                right: other,
            }),
        }
    }

    fn div(self, other: Frac32) -> Result<Frac32, Overflow<Frac32>> {
        match word_arithmetic::div(self.words(), other.words(), LIMIT) {
            Some(pair) => Ok(Frac32::of_words(pair)),
            None => Err(Overflow {
                op: Op::Div,
                left: self,
                right: other,
            }),
        }
    }

    fn cmp(self, other: Frac32) -> Ordering {
        compare_words(self.words(), other.words())
    }

    #[tactic(auto, unfolding(crate::specs::Narrow::value_of_32))]
    fn num(self) -> i128 {
        i128::from(self.num)
    }

    #[tactic(auto, unfolding(crate::specs::Narrow::value_of_32))]
    fn den(self) -> i128 {
        i128::from(self.den)
    }

    fn floor(self) -> Frac32 {
        Frac32::of_words(word_arithmetic::floor(self.words()))
    }

    #[tactic(auto, unfolding(crate::specs::Wide::value_of_wide))]
    fn widen(self) -> Frac128 {
        Frac128 {
            pair: self.words().long(),
        }
    }
}
