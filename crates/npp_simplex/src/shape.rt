//! The size of a tableau.

ghost use Rattle.std.specs.Prelude.{◌≡◌, ◌+◌, ◌^◌, ◌<◌};

/// The size of a program. Its tableau has two more rows, the goal rows, and its columns are those of
/// the program, a slack for each row, the extra column of phase one and the right side.
#[derive(Clone, Copy, Debug)]
pub struct Shape {
    /// How many rows the program has.
    pub rows: usize,
    /// How many columns the program has.
    pub columns: usize,
    ghost small: { columns + rows < 2 ^ 31 },
}

impl Shape {
    /// How many columns the tableau has.
    pub fn width(self) -> usize
        ensures { result ≡ self.columns + self.rows + 2 }
    {
        self.columns + self.rows + 2
    }

    /// How many rows the tableau has.
    pub fn height(self) -> usize
        ensures { result ≡ self.rows + 2 }
    {
        self.rows + 2
    }

    /// The extra column of phase one, which is also the number of columns before it.
    pub fn extra(self) -> usize
        ensures { result ≡ self.columns + self.rows }
    {
        self.columns + self.rows
    }

    /// The column of the right sides.
    pub fn right(self) -> usize
        ensures { result ≡ self.columns + self.rows + 1 }
    {
        self.columns + self.rows + 1
    }
}
