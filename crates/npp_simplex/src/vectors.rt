//! What is read off the last tableau.

ghost use Rattle.std.specs.Prelude.{◌≡◌, ℕ, ◌+◌, ◌<◌, ◌≤◌, ◌^◌, length, map, IfSome, IfOk};
ghost use Rattle.npp_frac.specs.Rational.{negative};
ghost use Rattle.npp_simplex.specs.Tableau.{cell as cell_of, height, width, right_column};
ghost use Rattle.npp_simplex.specs.Vectors.{basic_row as basic_row_of, basic_value, point as point_of, multipliers as multipliers_of, ray as ray_of, ray_value};

use crate::numbers::{negated, one, zero};
use crate::tableau::Tableau;
use npp_frac::{Exact, Memory};
use std::alloc::Global;

/// The row in which a column is basic.
pub fn basic_row(basis: &[u32], column: u32) -> Option<u32>
    requires { length basis.now < 2 ^ 32 }
    ensures row { result ≡ basic_row_of basis.now column }
    ensures within { IfSome result (λ i. i < length basis.now) }
{
    for i in 0..basis.len() {
        if basis[i] == column {
            return Some(i as u32);
        }
    }
    None
}

/// The right side of its row where a column is basic, and 0 elsewhere.
pub fn point_number<N: Exact>(tableau: &Tableau<N>, basis: &[u32], j: u32) -> N
    requires basis { length basis.now ≡ tableau.now.rows }
    ensures { N.rational result ≡ basic_value (λ i. cell_of tableau.now i (right_column tableau.now)) (basic_row_of basis.now j) }
{
    let shape = tableau.shape();
    match basic_row(basis, j) {
        Some(i) => tableau.entry(i as usize, shape.right()),
        None => zero(),
    }
}

/// The point: the right side of its row at each basic column, and 0 elsewhere.
pub fn point<N: Exact>(alloc: Global, tableau: &Tableau<N>, basis: &[u32]) -> Result<Vec<N>, Memory>
    requires basis { length basis.now ≡ tableau.now.rows }
    ensures { IfOk result (λ list. map N.rational list.items ≡ point_of tableau.now basis.now) }
{
    let shape = tableau.shape();
    let mut numbers = Vec::new(alloc);
    numbers.reserve(shape.columns)?;
    for j in 0..shape.columns {
        match numbers.push(point_number(tableau, basis, j as u32)) {
            Ok(()) => {}
            Err(_) => return Err(Memory),
        }
    }
    Ok(numbers)
}

/// The multipliers: the negatives of the slack entries of a goal row.
pub fn multipliers<N: Exact>(
    alloc: Global,
    tableau: &Tableau<N>,
    goal: usize,
) -> Result<Vec<N>, Memory>
    requires goal { goal < height tableau.now }
    ensures { IfOk result (λ list. map N.rational list.items ≡ multipliers_of tableau.now goal) }
{
    let shape = tableau.shape();
    let mut numbers = Vec::new(alloc);
    numbers.reserve(shape.rows)?;
    for k in 0..shape.rows {
        match numbers.push(negated(tableau.entry(goal, shape.columns + k))) {
            Ok(()) => {}
            Err(_) => return Err(Memory),
        }
    }
    Ok(numbers)
}

/// A number of the ray along a column: 1 there, and the negative of the column's entry at each basic column.
pub fn ray_number<N: Exact>(tableau: &Tableau<N>, basis: &[u32], column: u32, j: u32) -> N
    requires basis { length basis.now ≡ tableau.now.rows }
    requires column { column < width tableau.now }
    ensures { N.rational result ≡ ray_value tableau.now basis.now column j }
{
    if j == column {
        return one();
    }
    let _shape = tableau.shape();
    match basic_row(basis, j) {
        Some(i) => negated(tableau.entry(i as usize, column as usize)),
        None => zero(),
    }
}

/// The ray along a column.
pub fn ray<N: Exact>(
    alloc: Global,
    tableau: &Tableau<N>,
    basis: &[u32],
    column: u32,
) -> Result<Vec<N>, Memory>
    requires basis { length basis.now ≡ tableau.now.rows }
    requires column { column < width tableau.now }
    ensures { IfOk result (λ list. map N.rational list.items ≡ ray_of tableau.now basis.now column) }
{
    let shape = tableau.shape();
    let mut numbers = Vec::new(alloc);
    numbers.reserve(shape.columns)?;
    for j in 0..shape.columns {
        match numbers.push(ray_number(tableau, basis, column, j as u32)) {
            Ok(()) => {}
            Err(_) => return Err(Memory),
        }
    }
    Ok(numbers)
}
