//! The columns in which rows of a relaxation stand, and which of them are shares.

ghost use Rattle.std.specs.Prelude.{◌≡◌, ◌<◌, ◌≤◌, ◌++◌, true, length, map, All, IfOk, OnOk};
ghost use Rattle.std.specs.List.{AllPairs};
ghost use Rattle.npp_rows.specs.Cuts.{IsCut};
ghost use Rattle.npp_rows.specs.Meaning.{cut_value, multiplier_value};
ghost use Rattle.npp_rows.specs.RowOrder.{are_rows};
ghost use Rattle.npp_rows.specs.Relax.{relaxation, relaxation_rows, relaxation_columns};
ghost use Rattle.npp_rows.specs.Rows.{shares_from};
ghost use Rattle.npp_rows.specs.Derivations.{is_share, column_at};
ghost use Rattle.npp_rows.specs.Rounding.{StandOnlyIn};

use crate::cut::CutRow;
use crate::index::RelaxationIndex;
use crate::names::{ColumnName, Multiplier};
use npp_frac::Exact;
use npp_lp::Entry;
use npp_net::Memory;
use std::alloc::Global;

impl RelaxationIndex<'_> {
    /// The numbers of the columns in which the rows of multipliers stand, by rising number. It takes the time of the entries of
    /// these rows and of putting them in order.
    pub(crate) fn touched<N: Exact>(
        &self,
        alloc: Global,
        cuts: &[CutRow<N>],
        multipliers: &[Multiplier<N>],
    ) -> Result<Vec<u32>, Memory>
        requires cuts { All (λ c. IsCut self.now.paths (cut_value N.rational c)) cuts.now }
        requires few { length cuts.now ≤ 16777216 }
        requires rows { are_rows (relaxation_rows self.now.paths self.now.parts (length cuts.now)) (map (multiplier_value N.rational) multipliers.now) ≡ true }
        ensures rising { IfOk result (λ v. AllPairs (λ i j. i < j) v.items) }
        ensures inside { IfOk result (λ v. All (λ j. j < length (relaxation_columns self.now.paths self.now.parts)) v.items) }
        ensures all { IfOk result (λ v. StandOnlyIn (relaxation self.now.paths self.now.parts (map (cut_value N.rational) cuts.now)) (map (multiplier_value N.rational) multipliers.now) v.items) }
    {
        let mut columns = Vec::new(alloc);
        let mut entries = Vec::new(alloc);
        for multiplier in multipliers {
            self.write_row(cuts, multiplier.row, &mut entries)?;
            push_columns(&mut columns, &entries)?;
        }
        columns.sort_unstable();
        columns.dedup();
        Ok(columns)
    }

    /// Whether a column is a share.
    pub(crate) fn is_share(&self, column: u32) -> bool
        requires { column < length (relaxation_columns self.now.paths self.now.parts) }
        ensures value { result ≡ is_share (column_at (relaxation_columns self.now.paths self.now.parts) column) }
        ensures place { result ≡ true → (length self.now.paths.caps ≤ column) × (column < shares_from self.now.paths self.now.parts (length self.now.paths.covers)) }
    {
        let table = self.table();
        table.tolls() <= column && column < self.first_share(table.commodities())
    }

    /// The name of a column that is a share. It takes the time of a search among the commodities.
    pub(crate) fn share_at(&self, column: u32) -> ColumnName
        requires low { length self.now.paths.caps ≤ column }
        requires high { column < shares_from self.now.paths self.now.parts (length self.now.paths.covers) }
        ensures { result ≡ column_at (relaxation_columns self.now.paths self.now.parts) column }
    {
        let place = column - self.table().tolls();
        let k = self.commodity_of(place);
        let part = self.part(k);
        ColumnName::Share(k, part[(place - self.shares_below(k)) as usize])
    }
}

/// Adds the columns of entries.
fn push_columns<N: Exact>(columns: &mut Vec<u32>, entries: &[Entry<N>]) -> Result<(), Memory>
    ensures { OnOk result (columns.new.items ≡ columns.old.items ++ map (λ e. e.column) entries.now) }
{
    for entry in entries {
        columns.push(entry.column)?;
    }
    Ok(())
}
