//! Fractions of 32 bits.

ghost use Rattle.std.specs.Prelude.{◌≡◌, ◌<◌, ◌^◌, nat_abs};
ghost use Rattle.npp_frac.specs.Gcd.{gcd as gcd_of};

/// A fraction whose numerator and denominator are below `2^31` in size.
#[derive(Clone, Copy, Debug, PartialEq, Eq)]
pub struct Frac32 {
    pub(crate) num: i32,
    pub(crate) den: u32,
    ghost positive: { 0 < den },
    ghost reduced: { gcd_of (nat_abs num) den ≡ 1 },
    ghost num_below: { nat_abs num < 2 ^ 31 },
    ghost den_below: { den < 2 ^ 31 },
}
