//! Pairs of long numbers without a common factor, on which the fractions of 128 bits work.

ghost use Rattle.std.specs.Prelude.{◌≡◌, ◌<◌, ◌^◌, nat_abs};
ghost use Rattle.npp_frac.specs.Gcd.{gcd as gcd_of};

/// A numerator and a positive denominator without a common factor, both below `2^127` in size.
#[derive(Clone, Copy, Debug, PartialEq, Eq)]
pub struct Reduced {
    pub num: i128,
    pub den: u128,
    ghost positive: { 0 < den },
    ghost reduced: { gcd_of (nat_abs num) den ≡ 1 },
    ghost num_below: { nat_abs num < 2 ^ 127 },
    ghost den_below: { den < 2 ^ 127 },
}
