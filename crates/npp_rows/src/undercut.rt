//! Rows that say that a chosen path costs no more than another path.

ghost use Rattle.std.specs.Prelude.{◌≡◌, ◌<◌, ◌++◌, Some, length, map, OnOk};
ghost use Rattle.npp_lp.specs.Meaning.{terms_of};
ghost use Rattle.npp_rows.specs.declared.names.ColumnName.TheVariants.{Toll as toll_column};
ghost use Rattle.npp_rows.specs.PathModel.{path_count, tolls};
ghost use Rattle.npp_rows.specs.Named.{terms_from};
ghost use Rattle.npp_rows.specs.Inverse.{undercut_entry, undercut_right as undercut_right_of};

use crate::choice::push_differences;
use crate::row::toll_set;
use crate::table::PathTable;
use npp_frac::Exact;
use npp_lp::Entry;
use npp_net::Memory;

/// Adds the tolls of the chosen path of a commodity less those of another path.
pub(crate) fn push_undercut<N: Exact>(
    entries: &mut Vec<Entry<N>>,
    table: &PathTable,
    k: u32,
    chosen: u32,
    other: u32,
) -> Result<(), Memory>
    requires k { k < length table.now.covers }
    requires chosen { chosen < path_count table.now k }
    requires other { other < path_count table.now k }
    ensures { OnOk result (terms_of N.rational entries.new.items ≡ terms_of N.rational entries.old.items
        ++ terms_from 0 (undercut_entry table.now k other (Some chosen)) (map toll_column (tolls table.now))) }
{
    let paths = table.paths(k);
    push_differences(
        entries,
        table.tolls(),
        toll_set(paths, chosen),
        toll_set(paths, other),
    )
}

/// What the other path costs more than the chosen one.
pub(crate) fn undercut_right<N: Exact>(table: &PathTable, k: u32, chosen: u32, other: u32) -> N
    requires k { k < length table.now.covers }
    requires chosen { chosen < path_count table.now k }
    requires other { other < path_count table.now k }
    ensures { N.rational result ≡ undercut_right_of table.now k other (Some chosen) }
{
    N::of_whole(i64::from(table.cost(k, other)) - i64::from(table.cost(k, chosen)))
}
