//! The tableau: a table of exact numbers.

ghost use Rattle.std.specs.Prelude.{◌≡◌, ◌≢◌, ℕ, ◌<◌, ◌≤◌, length, is_some, IfSome, IfNone};
ghost use Rattle.npp_frac.specs.Rational.{zero_ℚ, is_less, ◌-ℚ◌, ◌*ℚ◌, ◌/ℚ◌};
ghost use Rattle.npp_frac.specs.Fits.{limit_of, fits_div};
ghost use Rattle.npp_lp.specs.Programs.{at};
ghost use Rattle.npp_simplex.specs.Tableau.{cell, height, width, with_row, divided_cell, cell_without_extra};
ghost use Rattle.npp_simplex.specs.Steps.{nonzero_columns as nonzero_columns_of, row_division_stop, row_reduction_stop};

use crate::line::Line;
use crate::shape::Shape;
use npp_frac::Exact;
use std::marker::Model;

/// A tableau. Contracts see it as the table of rational numbers for which it stands. How a row lies in memory is seen in the
/// row alone.
#[derive(Drop)]
pub struct Tableau<N: Exact> {
    /// Its size.
    pub shape: Shape,
    /// Its rows.
    pub lines: Vec<Line<N>>,
}

impl<N: Exact> Model for Tableau<N> {
    ghost use Rattle.npp_simplex.specs.Tableau.{Tableau as Table};
    ghost use Rattle.npp_simplex.specs.Layout.{tableau_of, IsGrid};

    ghost Value = { Table };

    ghost view = { λ a. tableau_of a.shape a.lines.items };

    ghost invariant = { λ a. IsGrid a.shape a.lines.items };
}

impl<N: Exact> Tableau<N> {
    /// Its size.
    pub fn shape(&self) -> Shape
        ensures rows { result.rows ≡ self.now.rows }
        ensures columns { result.columns ≡ self.now.columns }
    {
        self.shape
    }

    /// The number in a row and a column.
    pub fn entry(&self, row: usize, column: usize) -> N
        requires row { row < height self.now }
        requires column { column < width self.now }
        ensures { N.rational result ≡ cell self.now row column }
    {
        let line = &self.lines[row];
        line.number(column)
    }

    /// Whether the number in a row and a column is above 0.
    pub fn is_positive(&self, row: usize, column: usize) -> bool
        requires row { row < height self.now }
        requires column { column < width self.now }
        ensures { result ≡ is_less zero_ℚ (cell self.now row column) }
    {
        let line = &self.lines[row];
        line.is_positive(column)
    }

    /// The first of some columns at which a row is not 0, or their end.
    pub fn next_nonzero(&self, row: usize, from: usize, end: usize) -> usize
        requires row { row < height self.now }
        requires order { from ≤ end }
        requires end { end ≤ width self.now }
        ensures from { from ≤ result }
        ensures end { result ≤ end }
        ensures zeros { (j : ℕ) → from ≤ j → j < result → cell self.now row j ≡ zero_ℚ }
    {
        let line = &self.lines[row];
        line.next_nonzero(from, end)
    }

    /// The quotient of two numbers of a row, where it fits.
    pub fn quotient(&self, row: usize, column: usize, by: usize) -> Option<N>
        requires row { row < height self.now }
        requires column { column < width self.now }
        requires by { by < width self.now }
        requires divisor { cell self.now row by ≢ zero_ℚ }
        ensures fits { is_some result ≡ fits_div (limit_of N.WIDTH) (cell self.now row column) (cell self.now row by) }
        ensures exact { IfSome result (λ q. N.rational q ≡ cell self.now row column /ℚ cell self.now row by) }
    {
        let line = &self.lines[row];
        line.quotient(column, by)
    }

    /// Copies a row.
    pub fn copy_row(&self, row: usize, into: &mut Line<N>)
        requires row { row < height self.now }
        requires room { length into.old ≡ width self.now }
        ensures length { length into.new ≡ width self.now }
        ensures numbers { (j : ℕ) → j < width self.now → at into.new j ≡ cell self.now row j }
    {
        let line = &self.lines[row];
        into.copy_from(line);
    }

    /// Divides a row by its entry in a column, up to the first quotient that does not fit, whose column it answers.
    pub fn divide_row(&mut self, row: usize, column: usize) -> Option<u32>
        requires row { row < height self.old }
        requires column { column < width self.old }
        requires divisor { cell self.old row column ≢ zero_ℚ }
        ensures stop { result ≡ row_division_stop (limit_of N.WIDTH) self.old row column }
        ensures divided { IfNone result (self.new ≡ with_row self.old row (divided_cell self.old row column)) }
    {
        let _width = self.shape.width();
        let line = &mut self.lines[row];
        line.divide(column)
    }

    /// Takes the multiple of another row from row `i` that makes its entry in the column 0, up to the first number that does
    /// not fit, whose column it answers. The other row is 1 in the column, and `columns` are those in which it is not 0.
    pub fn reduce_row(
        &mut self,
        i: usize,
        column: usize,
        other: &Line<N>,
        columns: &[u32],
    ) -> Option<u32>
        requires row { i < height self.old }
        requires column { column < width self.old }
        requires other { length other.now ≡ width self.old }
        requires columns { columns.now ≡ nonzero_columns_of (at other.now) (width self.old) }
        ensures stop { result ≡ row_reduction_stop (limit_of N.WIDTH) self.old column (at other.now) i }
        ensures reduced { IfNone result (self.new ≡ with_row self.old i (λ j. cell self.old i j -ℚ cell self.old i column *ℚ at other.now j)) }
    {
        let _width = self.shape.width();
        let line = &mut self.lines[i];
        line.reduce(column, other, columns)
    }

    /// Sets the number of the extra column to 0 in a row, and each number where it is the goal row of phase one.
    pub fn clear_row(&mut self, i: usize)
        requires { i < height self.old }
        ensures { self.new ≡ with_row self.old i (cell_without_extra self.old i) }
    {
        let shape = self.shape;
        let line = &mut self.lines[i];
        if i == shape.rows {
            line.clear();
        } else {
            line.clear_at(shape.extra());
        }
    }
}
