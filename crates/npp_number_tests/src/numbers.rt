//! Numbers of every width.

ghost use Rattle.std.specs.Prelude.{◌<◌, nat_abs, IsTrue};
ghost use Rattle.npp_frac.specs.Fits.{IsWidth, limit_of};

use npp_frac::{Exact, is_zero};

/// A fraction by its numerator and its denominator, as it is written for every width.
pub(crate) type Number = (i64, i64);

/// Whether a whole number fits a width.
fn fits(number: i64, width: u32) -> bool
    requires { IsWidth width }
    ensures { IsTrue result → nat_abs number < limit_of width }
{
    match width {
        32 => number.unsigned_abs() < 1 << 31,
        64 => number.unsigned_abs() < 1 << 63,
        _ => true,
    }
}

/// A whole number, where it fits the width.
pub(crate) fn whole<N: Exact>(number: i64) -> Option<N> {
    if fits(number, N::WIDTH) {
        Some(N::of_whole(number))
    } else {
        None
    }
}

/// A fraction, where its parts fit the width and its denominator is not 0.
pub(crate) fn ratio<N: Exact>(number: Number) -> Option<N> {
    let num = whole::<N>(number.0)?;
    let den = whole::<N>(number.1)?;
    if is_zero(den) {
        return None;
    }
    num.div(den).ok()
}
