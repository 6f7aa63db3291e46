//! The simplex on a generated program.

use crate::interval::generated;
use npp_frac::{Exact, Memory};
use npp_simplex::{Answer, solve};
use std::alloc::Global;

/// The most rows and the most columns.
const MOST: u32 = 10_000;

/// The most pivots of a run.
const CAP: u32 = 100_000;

/// How a run ended: its pivots, and the numerator and the denominator of the greatest goal.
#[derive(Clone, Copy)]
pub struct Ended {
    /// How many pivots there were.
    pub pivots: u32,
    /// The numerator of the greatest goal.
    pub num: i128,
    /// The denominator of the greatest goal.
    pub den: i128,
}

/// The run on the generated program of these sizes, or None where it does not end with an optimum.
pub fn solved<N: Exact>(
    alloc: Global,
    rows: u32,
    columns: u32,
    most: u32,
) -> Result<Option<Ended>, Memory> {
    if rows > MOST || columns > MOST {
        return Ok(None);
    }
    let program = generated::<N>(alloc, rows, columns, most)?;
    let answer = solve(alloc, &program, CAP)?;
    Ok(end_of(&answer))
}

/// What is printed of an answer.
fn end_of<N: Exact>(answer: &Answer<N>) -> Option<Ended> {
    match answer {
        Answer::Optimal { value, pivots, .. } => Some(Ended {
            pivots: *pivots,
            num: value.num(),
            den: value.den(),
        }),
        _ => None,
    }
}
