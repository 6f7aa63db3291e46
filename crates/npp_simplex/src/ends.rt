//! The answers with which a run ends.

ghost use Rattle.std.specs.Prelude.{◌≡◌, ◌+◌, ◌<◌, length, IfOk};
ghost use Rattle.npp_simplex.specs.Tableau.{width};
ghost use Rattle.npp_simplex.specs.Run.{Optimal, Infeasible, Unbounded, no_column as no_column_of, no_row};
ghost use Rattle.npp_simplex.specs.Vectors.{point as point_of, multipliers as multipliers_of, value as value_of};
ghost use Rattle.npp_simplex.specs.Meaning.{outcome_of};

use crate::answer::Answer;
use crate::numbers::negated;
use crate::stage::Stage;
use crate::tableau::Tableau;
use crate::vectors::{multipliers, point, ray};
use npp_frac::{Exact, Memory};
use std::alloc::Global;

/// The answer where no column enters in phase two.
pub fn optimal<N: Exact>(
    alloc: Global,
    tableau: &Tableau<N>,
    basis: &[u32],
    pivots: u32,
) -> Result<Answer<N>, Memory>
    requires { length basis.now ≡ tableau.now.rows }
    ensures { IfOk result (λ a. outcome_of N.rational a ≡ Optimal (point_of tableau.now basis.now) (multipliers_of tableau.now (tableau.now.rows + 1)) (value_of tableau.now) pivots) }
{
    let shape = tableau.shape();
    let x = point(alloc, tableau, basis)?;
    let y = multipliers(alloc, tableau, shape.rows + 1)?;
    let value = negated(tableau.entry(shape.rows + 1, shape.right()));
    Ok(Answer::Optimal {
        x,
        y,
        value,
        pivots,
    })
}

/// The answer where no column enters.
pub fn no_column<N: Exact>(
    alloc: Global,
    stage: Stage,
    tableau: &Tableau<N>,
    basis: &[u32],
    pivots: u32,
) -> Result<Answer<N>, Memory>
    requires { length basis.now ≡ tableau.now.rows }
    ensures { IfOk result (λ a. outcome_of N.rational a ≡ no_column_of stage tableau.now basis.now pivots) }
{
    match stage {
        Stage::PhaseTwo => optimal(alloc, tableau, basis, pivots),
        _ => {
            let goal = tableau.shape().rows;
            let y = multipliers(alloc, tableau, goal)?;
            Ok(Answer::Infeasible { y, pivots })
        }
    }
}

/// The answer where no row may leave when a column enters.
pub fn unbounded<N: Exact>(
    alloc: Global,
    tableau: &Tableau<N>,
    basis: &[u32],
    column: u32,
    pivots: u32,
) -> Result<Answer<N>, Memory>
    requires basis { length basis.now ≡ tableau.now.rows }
    requires column { column < width tableau.now }
    ensures { IfOk result (λ a. outcome_of N.rational a ≡ no_row tableau.now basis.now column pivots) }
{
    let ray = ray(alloc, tableau, basis, column)?;
    Ok(Answer::Unbounded { ray, pivots })
}
