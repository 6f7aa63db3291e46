//! The rows of the program of a conflict: tolls under which two paths are cheapest at once.

ghost use Rattle.std.specs.Prelude.{◌≡◌, ◌⊎◌, Some, map, OnOk};
ghost use Rattle.npp_lp.specs.Meaning.{terms_of};
ghost use Rattle.npp_rows.specs.declared.names.ColumnName.TheVariants.{Toll as toll_column};
ghost use Rattle.npp_rows.specs.PathModel.{tolls};
ghost use Rattle.npp_rows.specs.Named.{terms_from};
ghost use Rattle.npp_rows.specs.Inverse.{choice_entry, choice_right, two_chosen};
ghost use Rattle.npp_rows.specs.Rows.{IsConflictRow};
ghost use Rattle.npp_rows.specs.TwoPaths.{AreTwoPaths};

use crate::entries::push_number;
use crate::names::RowName;
use crate::row::whole_number;
use crate::table::PathTable;
use crate::undercut::{push_undercut, undercut_right};
use npp_frac::Exact;
use npp_lp::Entry;
use npp_net::Memory;

/// A path of each of two commodities.
#[derive(Clone, Copy)]
pub(crate) struct TwoPaths {
    /// The lower commodity.
    pub k: u32,
    /// Its path.
    pub p: u32,
    /// The higher commodity.
    pub l: u32,
    /// Its path.
    pub q: u32,
}

/// Writes the entries of a row of the program of a conflict.
pub(crate) fn write_conflict_row<N: Exact>(
    table: &PathTable,
    two: TwoPaths,
    row: RowName,
    entries: &mut Vec<Entry<N>>,
) -> Result<(), Memory>
    requires paths { AreTwoPaths table.now two.k two.p two.l two.q }
    requires row { IsConflictRow table.now two.k two.l row }
    ensures { OnOk result (terms_of N.rational entries.new.items
        ≡ terms_from 0 (choice_entry table.now (two_chosen two.k two.p two.l two.q) row) (map toll_column (tolls table.now))) }
{
    entries.clear();
    match row {
        RowName::Cap(a) => push_number(entries, a, 1),
        RowName::Follow(c, q) => push_undercut(entries, table, c, chosen_of(two, c), q),
        RowName::Below(_, _)
        | RowName::Use(_, _)
        | RowName::Link(_, _)
        | RowName::One(_)
        | RowName::OneLow(_)
        | RowName::Cut(_) => Ok(()),
    }
}

/// The right side of a row of the program of a conflict.
pub(crate) fn conflict_right<N: Exact>(table: &PathTable, two: TwoPaths, row: RowName) -> N
    requires paths { AreTwoPaths table.now two.k two.p two.l two.q }
    requires row { IsConflictRow table.now two.k two.l row }
    ensures { N.rational result ≡ choice_right table.now (two_chosen two.k two.p two.l two.q) row }
{
    match row {
        RowName::Cap(a) => whole_number(table.cap(a)),
        RowName::Follow(c, q) => undercut_right(table, c, chosen_of(two, c), q),
        RowName::Below(_, _)
        | RowName::Use(_, _)
        | RowName::Link(_, _)
        | RowName::One(_)
        | RowName::OneLow(_)
        | RowName::Cut(_) => N::of_whole(0),
    }
}

/// The path that is chosen for one of two commodities.
fn chosen_of(two: TwoPaths, c: u32) -> u32
    requires { (c ≡ two.k) ⊎ (c ≡ two.l) }
    ensures { two_chosen two.k two.p two.l two.q c ≡ Some result }
{
    if c == two.k { two.p } else { two.q }
}
