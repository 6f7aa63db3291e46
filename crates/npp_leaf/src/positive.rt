//! The multipliers above 0 of a vector, by the names of their rows.

ghost use Rattle.std.specs.Prelude.{◌≡◌, length, map, IfOk};
ghost use Rattle.npp_rows.specs.Meaning.{multiplier_value};
ghost use Rattle.npp_leaf.specs.PositiveMultipliers.{positive_multipliers};

use npp_frac::{Exact, is_positive};
use npp_net::Memory;
use npp_rows::{Multiplier, RowName};
use std::alloc::Global;

/// Of a vector with a number for each row those above 0, each with the name of its row, in row order. It is how a dual
/// or a Farkas answer is written down.
pub(crate) fn positive_multipliers<N: Exact>(
    alloc: Global,
    rows: &[RowName],
    values: &[N],
) -> Result<Vec<Multiplier<N>>, Memory>
    requires { length values.now ≡ length rows.now }
    ensures { IfOk result (λ v. map (multiplier_value N.rational) v.items ≡ positive_multipliers rows.now (map N.rational values.now)) }
{
    let mut named = Vec::new(alloc);
    for (i, value) in values.iter().enumerate() {
        if is_positive(*value) {
            named.push(Multiplier {
                row: rows[i],
                value: *value,
            })?;
        }
    }
    Ok(named)
}
