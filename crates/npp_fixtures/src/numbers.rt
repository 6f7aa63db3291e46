//! Numbers of any width.

use npp_frac::{Exact, is_zero, print_fraction};
use std::alloc::Global;

/// A number by its numerator and its denominator, as it is written for every width.
pub type Number = (i32, u16);

/// A fraction by its numerator and its denominator. None where the denominator is 0, or the numerator is -2^31, which has no
/// place in 32 bits.
pub fn fraction<N: Exact>(num: i32, den: u16) -> Option<N> {
    if num == i32::MIN {
        return None;
    }
    let den = N::of_whole(i64::from(den));
    if is_zero(den) {
        return None;
    }
    N::of_whole(i64::from(num)).div(den).ok()
}

/// Writes numbers behind a text, with a space before each. None where memory is wanting.
pub fn write_numbers<N: Exact>(alloc: Global, text: &mut String, numbers: &[N]) -> Option<()> {
    for number in numbers {
        let number = print_fraction(alloc, *number).ok()?;
        write!(text, " {number}").ok()?;
    }
    Some(())
}
