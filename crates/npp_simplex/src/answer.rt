//! What a run of the simplex answers.

use crate::place::Place;

/// How a run of the lexicographic simplex ends.
///
/// Only its end depends on the width: a run that ends without an overflow has the same answer at each greater one.
#[derive(Debug, Drop)]
pub enum Answer<N> {
    /// A point with the greatest goal, multipliers of the rows that prove it, and the goal there.
    Optimal {
        /// The number of each column.
        x: Vec<N>,
        /// The multiplier of each row: a dual answer.
        y: Vec<N>,
        /// The goal at the point, which is the value of the multipliers too.
        value: N,
        /// How many pivots there were.
        pivots: u32,
    },
    /// No point keeps every row.
    Infeasible {
        /// The multiplier of each row: a Farkas answer.
        y: Vec<N>,
        /// How many pivots there were.
        pivots: u32,
    },
    /// The goal can be raised without end.
    Unbounded {
        /// The direction in which it rises, a number for each column.
        ray: Vec<N>,
        /// How many pivots there were.
        pivots: u32,
    },
    /// A number of the run does not fit the width: the first one in the order of work.
    Overflow {
        /// The pivot, numbered from 1.
        pivot: u32,
        /// Where in the pivot.
        place: Place,
    },
    /// The run has more pivots than were allowed.
    Capped,
}
