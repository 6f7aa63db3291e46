//! Fractions of 64 bits are exact.

ghost use Rattle.npp_frac.specs.Narrow.{value_of_64};
ghost use Rattle.npp_frac.specs.NarrowLaws.{width_64, fits_64, same_64};

use crate::comparison::compare_words;
use crate::exact::Exact;
use crate::frac64::Frac64;
use crate::frac128::Frac128;
use crate::refusal::{Op, Overflow};
use crate::word_arithmetic;
use std::cmp::Ordering;

const LIMIT: u64 = 1 << 63;

impl Exact for Frac64 {
    ghost WIDTH = { 64 };

    ghost rational = { value_of_64 };

    ghost width = { width_64 };

    ghost fits = { fits_64 };

    ghost same = { same_64 };

    const WIDTH: u32 = 64;

    #[tactic(auto, unfolding(crate::specs::Narrow::value_of_64))]
    fn of_whole(value: i64) -> Frac64 {
        Frac64 {
            pair: word_arithmetic::of_whole(value),
        }
    }

    #[tactic(auto, unfolding(crate::specs::Narrow::value_of_64))]
    #[inline(always)]
    fn add(self, other: Frac64) -> Result<Frac64, Overflow<Frac64>> {
        match word_arithmetic::add(self.pair, other.pair, LIMIT) {
            Some(pair) => Ok(Frac64 { pair }),
            None => Err(Overflow {
                op: Op::Add,
                left: self,
                right: other,
            }),
        }
    }

    #[tactic(auto, unfolding(crate::specs::Narrow::value_of_64))]
    #[inline(always)]
    fn sub(self, other: Frac64) -> Result<Frac64, Overflow<Frac64>> {
        match word_arithmetic::sub(self.pair, other.pair, LIMIT) {
            Some(pair) => Ok(Frac64 { pair }),
            None => Err(Overflow {
                op: Op::Sub,
                left: self,
                right: other,
            }),
        }
    }

    #[tactic(auto, unfolding(crate::specs::Narrow::value_of_64))]
    #[inline(always)]
    fn mul(self, other: Frac64) -> Result<Frac64, Overflow<Frac64>> {
        match word_arithmetic::mul(self.pair, other.pair, LIMIT) {
            Some(pair) => Ok(Frac64 { pair }),
            None => Err(Overflow {
                op: Op::Mul,
                left: self,
                right: other,
            }),
        }
    }

    #[tactic(auto, unfolding(crate::specs::Narrow::value_of_64))]
    fn div(self, other: Frac64) -> Result<Frac64, Overflow<Frac64>> {
        match word_arithmetic::div(self.pair, other.pair, LIMIT) {
            Some(pair) => Ok(Frac64 { pair }),
            None => Err(Overflow {
                op: Op::Div,
                left: self,
                right: other,
            }),
        }
    }

    #[tactic(auto, unfolding(crate::specs::Narrow::value_of_64))]
    fn cmp(self, other: Frac64) -> Ordering {
        compare_words(self.pair, other.pair)
    }

    #[tactic(auto, unfolding(crate::specs::Narrow::value_of_64))]
    fn num(self) -> i128 {
        i128::from(self.pair.num)
    }

    #[tactic(auto, unfolding(crate::specs::Narrow::value_of_64))]
    fn den(self) -> i128 {
        i128::from(self.pair.den)
    }

    #[tactic(auto, unfolding(crate::specs::Narrow::value_of_64))]
    fn floor(self) -> Frac64 {
        Frac64 {
            pair: word_arithmetic::floor(self.pair),
        }
    }

    #[tactic(auto, unfolding(crate::specs::Narrow::value_of_64, crate::specs::Wide::value_of_wide))]
    fn widen(self) -> Frac128 {
        Frac128 {
            pair: self.pair.long(),
        }
    }
}
