//! Pairs of words without a common factor, on which the fractions of 32 and of 64 bits work.

ghost use Rattle.std.specs.Prelude.{◌≡◌, ◌<◌, ◌^◌, nat_abs};
ghost use Rattle.npp_frac.specs.Gcd.{gcd as gcd_of};

/// A numerator and a positive denominator without a common factor, both below `2^127` in size.
#[derive(Clone, Copy, Debug, PartialEq, Eq)]
pub struct ReducedWords {
    pub num: i64,
    pub den: u64,
    ghost positive: { 0 < den },
    ghost reduced: { gcd_of (nat_abs num) den ≡ 1 },
    ghost num_below: { nat_abs num < 2 ^ 63 },
    ghost den_below: { den < 2 ^ 63 },
}
