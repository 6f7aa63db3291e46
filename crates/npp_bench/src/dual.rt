//! The check of a sparse dual answer of a dense program.

ghost use Rattle.std.specs.Prelude.{◌≡◌, ◌+◌, [], length, IfOk, OnOk};

use npp_frac::{Exact, Frac64, Memory};
use npp_lp::{Program, ProgramBuilder, check_dual};
use std::alloc::{AllocError, Global};

/// The most rows and the most columns.
const MOST: u32 = 100_000;

/// The numerator of the value of a dual answer that has `nonzero` multipliers above 0, or -1 where it is refused.
///
/// The program has that many rows and columns and no coefficient of 0; its goal is 0, so that each column is summed and
/// each passes.
pub fn checked(alloc: Global, rows: u32, columns: u32, nonzero: u32) -> Result<i128, Memory> {
    if rows > MOST || columns > MOST {
        return Ok(-1);
    }
    let program = dense(alloc, rows, columns)?;
    let y = numbers(alloc, rows, nonzero)?;
    match check_dual(&program, &y) {
        Ok(value) => Ok(value.num()),
        Err(_) => Ok(-1),
    }
}

/// A program with a coefficient of 1 to 7 in each row and column.
fn dense(alloc: Global, rows: u32, columns: u32) -> Result<Program<Frac64>, Memory>
    ensures { IfOk result (λ p. length p.rows ≡ rows) }
{
    let mut builder = ProgramBuilder::new(alloc, columns)?;
    for i in 0..rows {
        write_row(&mut builder, columns, i)?;
    }
    let goal = numbers(alloc, columns, 0)?;
    Ok(builder.finish(goal))
}

/// Writes a row with the same coefficient in each column.
fn write_row(builder: &mut ProgramBuilder<Frac64>, columns: u32, i: u32) -> Result<(), Memory>
    requires columns { builder.old.columns ≡ columns }
    requires begins { builder.old.next ≡ 0 }
    ensures columns { OnOk result (builder.new.columns ≡ columns) }
    ensures rows { OnOk result (length builder.new.rows ≡ length builder.old.rows + 1) }
    ensures begins { OnOk result (builder.new.next ≡ 0) }
    ensures ended { OnOk result (builder.new.entries ≡ []) }
{
    let value = Frac64::of_whole(i64::from(1 + i % 7));
    for column in 0..columns {
        builder.entry(column, value)?;
    }
    builder.end_row(Frac64::of_whole(i64::from(i % 1000)))
}

/// So many numbers: 1 in the first `ones` places, and 0 in the others.
fn numbers(alloc: Global, count: u32, ones: u32) -> Result<Vec<Frac64>, AllocError>
    ensures { IfOk result (λ v. length v.items ≡ count) }
{
    let mut numbers = Vec::new(alloc);
    for i in 0..count {
        let number = if i < ones { 1 } else { 0 };
        numbers.push(Frac64::of_whole(number))?;
    }
    Ok(numbers)
}
