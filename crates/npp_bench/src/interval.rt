//! Generated programs whose runs stay within small numbers.
//!
//! Each row has its coefficients in an interval of columns, so that every number of a tableau is 0 or a unit; then rows and
//! columns are multiplied by small fractions. A point with 3 in each column before that keeps each row, and the first row
//! bounds every column. Each fourth row asks for at least its right side, so that phase one stands.

ghost use Rattle.std.specs.Prelude.{◌≡◌, ◌≤◌, [], length, IfOk, OnOk};

use npp_frac::{Exact, Memory, is_zero};
use npp_lp::{Program, ProgramBuilder};
use std::alloc::{AllocError, Global};

/// The greatest numerator and denominator of a factor of a row or of a column.
const MOST: u32 = 1_000;

/// A program with so many rows and columns, whose rows and columns have factors with numerators and denominators up to
/// `most`.
pub fn generated<N: Exact>(
    alloc: Global,
    rows: u32,
    columns: u32,
    most: u32,
) -> Result<Program<N>, Memory>
    requires { columns ≤ 100000 }
{
    let mut builder = ProgramBuilder::new(alloc, columns)?;
    for i in 0..rows {
        write_row(&mut builder, i, columns, most)?;
    }
    let goal = goal(alloc, columns, most)?;
    Ok(builder.finish(goal))
}

/// Writes a row.
fn write_row<N: Exact>(
    builder: &mut ProgramBuilder<N>,
    i: u32,
    columns: u32,
    most: u32,
) -> Result<(), Memory>
    requires few { columns ≤ 100000 }
    requires columns { builder.old.columns ≡ columns }
    requires begins { builder.old.next ≡ 0 }
    ensures columns { OnOk result (builder.new.columns ≡ columns) }
    ensures begins { OnOk result (builder.new.next ≡ 0) }
    ensures ended { OnOk result (builder.new.entries ≡ []) }
{
    for column in 0..columns {
        builder.entry(column, coefficient(i, column, columns, most))?;
    }
    builder.end_row(bound(i, columns, most))
}

/// The coefficient of a row in a column.
fn coefficient<N: Exact>(i: u32, column: u32, columns: u32, most: u32) -> N {
    let start = first_column(i, columns);
    if column < start || column - start >= length_of(i, columns) {
        return N::of_whole(0);
    }
    let size = times(factor::<N>(21, i, most), factor(23, column, most));
    if is_lower(i) {
        times(N::of_whole(-1), size)
    } else {
        size
    }
}

/// Whether a row asks for at least its right side.
fn is_lower(i: u32) -> bool {
    i % 4 == 3
}

/// How many columns a row has coefficients in: all of them in the first row, and at most half of them in the others.
fn length_of(i: u32, columns: u32) -> u32
    ensures { result ≤ columns }
{
    let half = columns / 2;
    if i == 0 || half == 0 {
        columns
    } else {
        1 + spread(11, i) % half
    }
}

/// The first column in which a row has a coefficient.
fn first_column(i: u32, columns: u32) -> u32 {
    let places = columns - length_of(i, columns);
    if places == 0 {
        0
    } else {
        spread(12, i) % places
    }
}

/// The right side of a row, times the factor of the row.
fn bound<N: Exact>(i: u32, columns: u32, most: u32) -> N
    requires { columns ≤ 100000 }
{
    let middle = 3 * length_of(i, columns);
    let room = spread(14, i) % 50;
    let whole = if is_lower(i) {
        -i64::from(middle.saturating_sub(room))
    } else {
        i64::from(middle + room)
    };
    times(N::of_whole(whole), factor(21, i, most))
}

/// The goal: 1 to 20 in each column, times the factor of the column.
fn goal<N: Exact>(alloc: Global, columns: u32, most: u32) -> Result<Vec<N>, AllocError>
    ensures { IfOk result (λ v. length v.items ≡ columns) }
{
    let mut numbers = Vec::new(alloc);
    for j in 0..columns {
        let whole = N::of_whole(i64::from(1 + spread(15, j) % 20));
        numbers.push(times(whole, factor(23, j, most)))?;
    }
    Ok(numbers)
}

/// The factor of a row or of a column: 1, or a fraction with a numerator and a denominator up to `most`.
fn factor<N: Exact>(seed: u32, i: u32, most: u32) -> N {
    if most < 2 || most > MOST {
        return N::of_whole(1);
    }
    let top = N::of_whole(i64::from(1 + spread(seed, i) % most));
    let bottom = N::of_whole(i64::from(1 + spread(seed.wrapping_add(1), i) % most));
    if is_zero(bottom) {
        return top;
    }
    match top.div(bottom) {
        Ok(quotient) => quotient,
        Err(_) => top,
    }
}

/// The product, or 0 where it does not fit.
fn times<N: Exact>(first: N, second: N) -> N {
    match first.mul(second) {
        Ok(product) => product,
        Err(_) => N::of_whole(0),
    }
}

/// A number that depends on all bits of a seed and of a place.
fn spread(seed: u32, i: u32) -> u32 {
    let sum = seed
        .wrapping_mul(2_654_435_769)
        .wrapping_add(i.wrapping_mul(40_503));
    let mixed = (sum ^ (sum >> 15)).wrapping_mul(2_246_822_519);
    mixed ^ (mixed >> 13)
}
