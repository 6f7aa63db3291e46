//! The first tableau of a program.

ghost use Rattle.std.specs.Prelude.{◌≡◌, ◌+◌, ◌<◌, ◌≤◌, ◌++◌, length, map, IfOk, if◌then◌else◌};
ghost use Rattle.std.specs.List.{range_with_len};
ghost use Rattle.npp_frac.specs.Rational.{zero_ℚ, one_ℚ, negative};
ghost use Rattle.npp_lp.specs.Meaning.{linear_program, IsProgram};
ghost use Rattle.npp_simplex.specs.Run.{has_phase_one, extra_entry as extra_entry_of, first_cell, first_tableau};

use crate::line::Line;
use crate::long::Long;
use crate::numbers::{minus_one, one, zero};
use crate::shape::Shape;
use crate::tableau::Tableau;
use crate::workspace::Workspace;
use npp_frac::{Exact, Memory};
use npp_lp::{Program, coefficient_at};
use std::alloc::Global;

/// A number of a row of the program in the first tableau.
pub fn row_number<N: Exact>(shape: Shape, program: &Program<N>, i: usize, j: usize, extra: N) -> N
    requires program { IsProgram N.rational program.now }
    requires rows { shape.rows ≡ length program.now.rows }
    requires columns { shape.columns ≡ program.now.columns }
    requires row { i < shape.rows }
    requires column { j < shape.columns + shape.rows + 2 }
    requires extra { N.rational extra ≡ extra_entry_of (linear_program N.rational program.now) }
    ensures { N.rational result ≡ first_cell (linear_program N.rational program.now) i j }
{
    let slacks = shape.columns;
    let own = shape.columns + i;
    let last = shape.columns + shape.rows;
    if j < slacks {
        return coefficient_at(program.row(i), j as u32);
    }
    if j == own {
        return one();
    }
    if j < last {
        return zero();
    }
    if j == last {
        return extra;
    }
    program.right()[i]
}

/// A number of a goal row in the first tableau.
pub fn goal_number<N: Exact>(shape: Shape, program: &Program<N>, i: usize, j: usize, extra: N) -> N
    requires program { IsProgram N.rational program.now }
    requires rows { shape.rows ≡ length program.now.rows }
    requires columns { shape.columns ≡ program.now.columns }
    requires row { shape.rows ≤ i }
    requires column { j < shape.columns + shape.rows + 2 }
    requires extra { N.rational extra ≡ extra_entry_of (linear_program N.rational program.now) }
    ensures { N.rational result ≡ first_cell (linear_program N.rational program.now) i j }
{
    let first_goal = shape.rows;
    let slacks = shape.columns;
    let last = shape.columns + shape.rows;
    if i == first_goal {
        if j == last {
            return extra;
        }
        return zero();
    }
    if j < slacks {
        return program.goal()[j];
    }
    zero()
}

/// A number of the first tableau.
pub fn first_number<N: Exact>(shape: Shape, program: &Program<N>, i: usize, j: usize, extra: N) -> N
    requires program { IsProgram N.rational program.now }
    requires rows { shape.rows ≡ length program.now.rows }
    requires columns { shape.columns ≡ program.now.columns }
    requires column { j < shape.columns + shape.rows + 2 }
    requires extra { N.rational extra ≡ extra_entry_of (linear_program N.rational program.now) }
    ensures { N.rational result ≡ first_cell (linear_program N.rational program.now) i j }
{
    if i < shape.rows {
        row_number(shape, program, i, j, extra)
    } else {
        goal_number(shape, program, i, j, extra)
    }
}

/// The entry of the extra column in each row: -1 in phase one, and 0 where there is no phase one.
pub fn extra_entry<N: Exact>(phase_one: bool) -> N
    ensures { N.rational result ≡ (if phase_one then negative one_ℚ else zero_ℚ) }
{
    if phase_one { minus_one() } else { zero() }
}

/// Adds the numbers of a row of the first tableau to a list.
pub fn push_row<N: Exact>(
    cells: &mut Vec<N>,
    shape: Shape,
    program: &Program<N>,
    i: usize,
    extra: N,
) -> Result<(), Memory>
    requires program { IsProgram N.rational program.now }
    requires rows { shape.rows ≡ length program.now.rows }
    requires columns { shape.columns ≡ program.now.columns }
    requires extra { N.rational extra ≡ extra_entry_of (linear_program N.rational program.now) }
    ensures { IfOk result (λ _. map N.rational cells.new.items ≡ map N.rational cells.old.items ++ map (first_cell (linear_program N.rational program.now) i) (range_with_len 0 (shape.columns + shape.rows + 2))) }
{
    for j in 0..shape.width() {
        match cells.push(first_number(shape, program, i, j, extra)) {
            Ok(()) => {}
            Err(_) => return Err(Memory),
        }
    }
    Ok(())
}

/// A row of the first tableau, in the memory of another row.
pub fn first_line<N: Exact>(
    spare: Line<N>,
    shape: Shape,
    program: &Program<N>,
    i: usize,
    extra: N,
) -> Result<Line<N>, Memory>
    requires program { IsProgram N.rational program.now }
    requires rows { shape.rows ≡ length program.now.rows }
    requires columns { shape.columns ≡ program.now.columns }
    requires extra { N.rational extra ≡ extra_entry_of (linear_program N.rational program.now) }
    ensures { IfOk result (λ line. line ≡ map (first_cell (linear_program N.rational program.now) i) (range_with_len 0 (shape.columns + shape.rows + 2))) }
{
    let Line { words, long, .. } = spare;
    let Long {
        words: long_words,
        mut fractions,
        ..
    } = long;
    fractions.clear();
    fractions.reserve(shape.width())?;
    push_row(&mut fractions, shape, program, i, extra)?;
    Line::over(words, long_words, fractions)
}

impl<N: Exact> Tableau<N> {
    /// The first tableau of a program of this size, in the memory of a workspace.
    pub fn first(
        alloc: Global,
        workspace: &mut Workspace<N>,
        program: &Program<N>,
        shape: Shape,
        phase_one: bool,
    ) -> Result<Tableau<N>, Memory>
        requires program { IsProgram N.rational program.now }
        requires rows { shape.rows ≡ length program.now.rows }
        requires columns { shape.columns ≡ program.now.columns }
        requires phase_one { phase_one ≡ has_phase_one (linear_program N.rational program.now) }
        ensures { IfOk result (λ tableau. tableau ≡ first_tableau (linear_program N.rational program.now)) }
    {
        let extra = extra_entry(phase_one);
        let mut lines = workspace.line_list(alloc)?;
        lines.reserve(shape.height())?;
        for i in 0..shape.height() {
            let spare = workspace.spare_line(alloc);
            let line = first_line(spare, shape, program, i, extra)?;
            match lines.push(line) {
                Ok(()) => {}
                Err(_) => return Err(Memory),
            }
        }
        Ok(Tableau { shape, lines })
    }
}
