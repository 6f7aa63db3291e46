//! Reading a tableau: the column that enters, and the rows that may leave.

ghost use Rattle.std.specs.Prelude.{◌≡◌, ◌+◌, ◌<◌, ◌≤◌, ◌^◌, length, take, IfSome};
ghost use Rattle.std.specs.List.{range_with_len};
ghost use Rattle.npp_simplex.specs.Tableau.{height, width};
ghost use Rattle.npp_simplex.specs.Ratio.{rising_column as rising_column_of, entering as entering_of, positive_rows as positive_rows_of, candidates as candidates_of};

use crate::stage::Stage;
use crate::tableau::Tableau;
use npp_frac::Exact;

/// Writes the number of each row into a list.
pub fn all_rows(list: &mut [u32])
    requires { length list.old < 2 ^ 32 }
    ensures { list.new ≡ range_with_len 0 (length list.old) }
{
    for i in 0..list.len() {
        list[i] = i as u32;
    }
}

impl<N: Exact> Tableau<N> {
    /// The least column, of the program or a slack, with a positive reduced cost in a goal row.
    pub fn rising_column(&self, goal: usize) -> Option<u32>
        requires { goal < height self.now }
        ensures column { result ≡ rising_column_of self.now goal }
        ensures within { IfSome result (λ j. j < self.now.columns + self.now.rows) }
    {
        let shape = self.shape();
        for j in 0..shape.extra() {
            if self.is_positive(goal, j) {
                return Some(j as u32);
            }
        }
        None
    }

    /// The column that enters the basis.
    pub fn entering(&self, stage: Stage) -> Option<u32>
        ensures column { result ≡ entering_of stage self.now }
        ensures within { IfSome result (λ j. j < self.now.columns + self.now.rows + 1) }
    {
        let shape = self.shape();
        match stage {
            Stage::Entry => Some(shape.extra() as u32),
            Stage::PhaseOne => self.rising_column(shape.rows),
            Stage::PhaseTwo => self.rising_column(shape.rows + 1),
        }
    }

    /// Writes the rows with a positive entry in a column into a list, and tells how many they are.
    pub fn positive_rows(&self, column: usize, list: &mut [u32]) -> usize
        requires column { column < width self.now }
        requires room { length list.old ≡ self.now.rows }
        ensures some { result ≤ self.now.rows }
        ensures rows { take result list.new ≡ positive_rows_of self.now column }
    {
        let shape = self.shape();
        let mut count = 0;
        for i in 0..shape.rows {
            if self.is_positive(i, column) {
                list[count] = i as u32;
                count += 1;
            }
        }
        count
    }

    /// Writes the rows that may leave the basis when a column enters into a list, and tells how many they are.
    pub fn candidates(&self, stage: Stage, column: usize, list: &mut [u32]) -> usize
        requires column { column < width self.now }
        requires room { length list.old ≡ self.now.rows }
        ensures some { result ≤ self.now.rows }
        ensures rows { take result list.new ≡ candidates_of stage self.now column }
    {
        let shape = self.shape();
        match stage {
            Stage::Entry => {
                all_rows(list);
                shape.rows
            }
            Stage::PhaseOne => self.positive_rows(column, list),
            Stage::PhaseTwo => self.positive_rows(column, list),
        }
    }
}
