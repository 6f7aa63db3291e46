//! One pivot, in place.

ghost use Rattle.std.specs.Prelude.{◌≡◌, ◌≢◌, ◌<◌, length, IfNone};
ghost use Rattle.npp_frac.specs.Rational.{zero_ℚ};
ghost use Rattle.npp_frac.specs.Fits.{limit_of};
ghost use Rattle.npp_simplex.specs.Tableau.{cell, width, pivoted};
ghost use Rattle.npp_simplex.specs.Steps.{whole_pivot_stop};

use crate::line::Line;
use crate::place::{Place, Step};
use crate::tableau::Tableau;
use npp_frac::Exact;

impl<N: Exact> Tableau<N> {
    /// One pivot in the whole table, up to the first number that does not fit, whose place it answers. The row and the
    /// list are room for a row and for columns.
    pub fn pivot(
        &mut self,
        row: usize,
        column: usize,
        divided: &mut Line<N>,
        columns: &mut [u32],
    ) -> Option<Place>
        requires row { row < self.old.rows }
        requires column { column < width self.old }
        requires divisor { cell self.old row column ≢ zero_ℚ }
        requires divided { length divided.old ≡ width self.old }
        requires columns { length columns.old ≡ width self.old }
        ensures room { length divided.new ≡ width self.old }
        ensures stop { result ≡ whole_pivot_stop (limit_of N.WIDTH) self.old row column }
        ensures pivoted { IfNone result (self.new ≡ pivoted self.old row column) }
    {
        let height = self.shape().height();
        match self.divide_row(row, column) {
            Some(j) => {
                return Some(Place {
                    step: Step::Pivot,
                    row: row as u32,
                    column: j,
                });
            }
            None => {}
        }
        self.copy_row(row, divided);
        let count = divided.nonzero_columns(columns);
        for i in 0..height {
            if i == row {
                continue;
            }
            match self.reduce_row(i, column, divided, &columns[..count]) {
                Some(j) => {
                    return Some(Place {
                        step: Step::Pivot,
                        row: i as u32,
                        column: j,
                    });
                }
                None => {}
            }
        }
        None
    }
}
