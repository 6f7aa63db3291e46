//! Rows with their multipliers.

use crate::numbers::{Number, fraction};
use npp_frac::Exact;
use npp_rows::{Multiplier, RowName};
use std::alloc::Global;

/// Rows with their multipliers, as they are written for every width.
pub type Named<'a> = &'a [(RowName, Number)];

/// Rows with their multipliers at a width. None where a number does not fit it, or memory is wanting.
pub fn multipliers_of<N: Exact>(alloc: Global, named: Named) -> Option<Vec<Multiplier<N>>> {
    let mut list = Vec::new(alloc);
    for one in named {
        let (row, (num, den)) = *one;
        let value = fraction(num, den)?;
        list.push(Multiplier { row, value }).ok()?;
    }
    Some(list)
}
