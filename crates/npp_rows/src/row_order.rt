//! The order of rows by their names.

ghost use Rattle.std.specs.Prelude.{◌≡◌};
ghost use Rattle.npp_rows.specs.RowOrder.{row_key, is_key_less, is_before as is_before_of};
ghost use Rattle.npp_rows.specs.Taken.{is_after as is_after_of};

use crate::names::RowName;

impl RowName {
    /// Whether this row stands before another in every program that has both: by kind, then by commodity, then by toll or
    /// path; cuts by number.
    pub fn is_before(self, other: RowName) -> bool
        ensures { result ≡ is_before_of self other }
    {
        is_key_less(key(self), key(other))
    }

    /// Whether this row stands behind another, where there is one.
    pub fn is_after(self, last: Option<RowName>) -> bool
        ensures { result ≡ is_after_of last self }
    {
        match last {
            None => true,
            Some(last) => last.is_before(self),
        }
    }
}

/// The kind of a row, its commodity, and its toll, path or number.
fn key(row: RowName) -> (u32, u32, u32)
    ensures { result ≡ row_key row }
{
    match row {
        RowName::Cap(a) => (0, 0, a),
        RowName::Follow(k, q) => (1, k, q),
        RowName::Below(a, k) => (2, k, a),
        RowName::Use(a, k) => (3, k, a),
        RowName::Link(a, k) => (4, k, a),
        RowName::One(k) => (5, k, 0),
        RowName::OneLow(k) => (6, k, 0),
        RowName::Cut(i) => (7, 0, i),
    }
}

/// Whether one key is before another: by the first place at which they differ.
fn is_key_less(x: (u32, u32, u32), y: (u32, u32, u32)) -> bool
    ensures { result ≡ is_key_less x y }
{
    if x.0 != y.0 {
        x.0 < y.0
    } else if x.1 != y.1 {
        x.1 < y.1
    } else {
        x.2 < y.2
    }
}
