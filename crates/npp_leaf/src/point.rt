//! The point of a relaxation, by its tolls and shares.

ghost use Rattle.std.specs.Prelude.{◌≡◌, ◌≤◌, length, map, sum_by, IfOk};
ghost use Rattle.npp_rows.specs.Relax.{relaxation_columns};
ghost use Rattle.npp_tree.specs.Points.{point_of, shares_from};
ghost use Rattle.npp_leaf.specs.Found.{point_value};

use npp_frac::Exact;
use npp_net::{Listed, Memory};
use npp_rows::RelaxationIndex;
use npp_tree::Point;
use std::alloc::Global;

/// The tolls and shares of a point of a relaxation, which has a number for each column.
pub(crate) fn point_of<N: Exact>(
    alloc: Global,
    index: &RelaxationIndex,
    x: &[N],
) -> Result<Point<N>, Memory>
    requires { length x.now ≡ length (relaxation_columns index.now.paths index.now.parts) }
    ensures { IfOk result (λ p. point_value N.rational p ≡ point_of index.now.paths index.now.parts (map N.rational x.now)) }
{
    let count = index.table().tolls() as usize;
    let (tolls, rest) = x.split_at(count);
    let shares = shares_of(alloc, index, rest)?;
    Ok(Point {
        tolls: Listed::of(Vec::from_slice(alloc, tolls)?),
        shares: Listed::of(shares),
    })
}

/// The shares of the allowed paths of each commodity, which stand first.
fn shares_of<N: Exact>(
    alloc: Global,
    index: &RelaxationIndex,
    x: &[N],
) -> Result<Vec<Listed<N>>, Memory>
    requires { sum_by length index.now.parts ≤ length x.now }
    ensures { IfOk result (λ v. map (map N.rational) v.items ≡ shares_from index.now.parts (map N.rational x.now)) }
{
    let mut shares = Vec::new(alloc);
    let mut rest = x;
    for k in 0..index.table().commodities() {
        let (part, others) = rest.split_at(index.part(k).len());
        shares.push(Listed::of(Vec::from_slice(alloc, part)?))?;
        rest = others;
    }
    Ok(shares)
}
