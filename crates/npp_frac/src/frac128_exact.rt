//! Fractions of 128 bits are exact.

ghost use Rattle.npp_frac.specs.Wide.{value_of_wide};
ghost use Rattle.npp_frac.specs.WideLaws.{wide_width, wide_fits, wide_same};

use crate::arithmetic;
use crate::comparison::compare;
use crate::exact::Exact;
use crate::frac128::Frac128;
use crate::refusal::{Op, Overflow};
use std::cmp::Ordering;

const LIMIT: u128 = 1 << 127;

impl Exact for Frac128 {
    ghost WIDTH = { 128 };

    ghost rational = { value_of_wide };

    ghost width = { wide_width };

    ghost fits = { wide_fits };

    ghost same = { wide_same };

    const WIDTH: u32 = 128;

    #[tactic(auto, unfolding(crate::specs::Wide::value_of_wide))]
    fn of_whole(value: i64) -> Frac128 {
        Frac128 {
            pair: arithmetic::of_whole(i128::from(value)),
        }
    }

    #[tactic(auto, unfolding(crate::specs::Wide::value_of_wide))]
    #[inline(always)]
    fn add(self, other: Frac128) -> Result<Frac128, Overflow<Frac128>> {
        match arithmetic::add(self.pair, other.pair, LIMIT) {
            Some(pair) => Ok(Frac128 { pair }),
            None => Err(Overflow {
                op: Op::Add,
                left: self,
                right: other,
            }),
        }
    }

    #[tactic(auto, unfolding(crate::specs::Wide::value_of_wide))]
    #[inline(always)]
    fn sub(self, other: Frac128) -> Result<Frac128, Overflow<Frac128>> {
        match arithmetic::sub(self.pair, other.pair, LIMIT) {
            Some(pair) => Ok(Frac128 { pair }),
            None => Err(Overflow {
                op: Op::Sub,
                left: self,
                right: other,
            }),
        }
    }

    #[tactic(auto, unfolding(crate::specs::Wide::value_of_wide))]
    #[inline(always)]
    fn mul(self, other: Frac128) -> Result<Frac128, Overflow<Frac128>> {
        match arithmetic::mul(self.pair, other.pair, LIMIT) {
            Some(pair) => Ok(Frac128 { pair }),
            None => Err(Overflow {
                op: Op::Mul,
                left: self,
                right: other,
            }),
        }
    }

    #[tactic(auto, unfolding(crate::specs::Wide::value_of_wide))]
    fn div(self, other: Frac128) -> Result<Frac128, Overflow<Frac128>> {
        match arithmetic::div(self.pair, other.pair, LIMIT) {
            Some(pair) => Ok(Frac128 { pair }),
            None => Err(Overflow {
                op: Op::Div,
                left: self,
                right: other,
            }),
        }
    }

    #[tactic(auto, unfolding(crate::specs::Wide::value_of_wide))]
    fn cmp(self, other: Frac128) -> Ordering {
        compare(self.pair, other.pair)
    }

    #[tactic(auto, unfolding(crate::specs::Wide::value_of_wide))]
    fn num(self) -> i128 {
        self.pair.num
    }

    #[tactic(auto, unfolding(crate::specs::Wide::value_of_wide))]
    fn den(self) -> i128 {
        self.pair.den as i128
    }

    #[tactic(auto, unfolding(crate::specs::Wide::value_of_wide))]
    fn floor(self) -> Frac128 {
        Frac128 {
            pair: arithmetic::floor(self.pair),
        }
    }

    #[tactic(auto, unfolding(crate::specs::Wide::value_of_wide))]
    fn widen(self) -> Frac128 {
        self
    }
}
