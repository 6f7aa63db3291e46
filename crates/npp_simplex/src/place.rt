//! Where in a pivot a number stands.

/// The two steps of a pivot.
#[derive(Clone, Copy, PartialEq, Eq, Debug)]
pub enum Step {
    /// The ratio test, which chooses the row that leaves the basis.
    Ratio,
    /// The replacement of the tableau's numbers.
    Pivot,
}

/// A place in the work of a pivot: a number of the tableau.
///
/// Rows are numbered from 0, with the two goal rows last. Columns are those of the program, then a slack for each row, then
/// the extra variable of phase one, then the right side.
#[derive(Clone, Copy, PartialEq, Eq, Debug)]
pub struct Place {
    /// The step of the pivot.
    pub step: Step,
    /// The row of the number.
    pub row: u32,
    /// The column of the number; in a ratio test that of the entry that is divided.
    pub column: u32,
}
