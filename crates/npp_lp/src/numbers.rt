//! Tests of lists of numbers.

ghost use Rattle.std.specs.Prelude.{◌≡◌, ◌<◌, ◌^◌, length, map};
ghost use Rattle.npp_lp.specs.Verdict.{first_negative};

use npp_frac::{Exact, is_negative};

/// The place of the first number that is below 0.
pub fn first_negative<N: Exact>(numbers: &[N]) -> Option<u32>
    requires { length numbers.now < 2 ^ 31 }
    ensures { result ≡ first_negative (map N.rational numbers.now) }
{
    for (place, number) in numbers.iter().enumerate() {
        if is_negative(*number) {
            return Some(place as u32);
        }
    }
    None
}
