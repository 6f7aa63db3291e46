//! Lists of multipliers: their order and their signs.

ghost use Rattle.std.specs.Prelude.{◌≡◌, map};
ghost use Rattle.npp_rows.specs.RowOrder.{are_in_order as are_in_order_of, are_positive as are_positive_of};
ghost use Rattle.npp_rows.specs.Meaning.{multiplier_value};

use crate::names::Multiplier;
use npp_frac::{Exact, is_positive};

/// Whether the rows of multipliers rise strictly.
pub(crate) fn are_in_order<N: Exact>(multipliers: &[Multiplier<N>]) -> bool
    ensures { result ≡ are_in_order_of (map (multiplier_value N.rational) multipliers.now) }
{
    let mut last = None;
    for multiplier in multipliers {
        if !multiplier.row.is_after(last) {
            return false;
        }
        last = Some(multiplier.row);
    }
    true
}

/// Whether each multiplier is above 0.
pub(crate) fn are_positive<N: Exact>(multipliers: &[Multiplier<N>]) -> bool
    ensures { result ≡ are_positive_of (map (multiplier_value N.rational) multipliers.now) }
{
    for multiplier in multipliers {
        if !is_positive(multiplier.value) {
            return false;
        }
    }
    true
}
