//! The numbers of rows and columns, by their names.

ghost use Rattle.std.specs.Prelude.{◌≡◌, ◌<◌, ◌≤◌, ◌+◌, ◌*◌, ◌^◌, ℕ, List, false, length, slice_index_or, Contains, IfSome, MatchOption};
ghost use Rattle.npp_cover.specs.Replaces.{sum_below};
ghost use Rattle.npp_rows.specs.PathModel.{path_count, commodities};
ghost use Rattle.npp_rows.specs.Parts.{part_at};
ghost use Rattle.npp_rows.specs.Family.{paid_count};
ghost use Rattle.npp_rows.specs.RowOrder.{has_row};
ghost use Rattle.npp_rows.specs.Places.{row_place, column_place, IsPlaceIn};
ghost use Rattle.npp_rows.specs.Relax.{relaxation_rows, relaxation_columns, allowed_tolls};
ghost use Rattle.npp_rows.specs.Inverse.{inverse};
ghost use Rattle.npp_rows.specs.Rows.{IsRow, IsChoiceRow, IsChoiceColumn, HasColumn, IsPaidOn, pairs_from, shares_from, paid_from};

use crate::index::RelaxationIndex;
use crate::names::{ColumnName, RowName};
use crate::search::place_in;
use crate::table::PathTable;

impl RelaxationIndex<'_> {
    /// The number of a row of the relaxation with so many cuts, or `None` exactly where it has no such row. It takes the
    /// time of a search among the tolls of a commodity.
    pub fn row_place(&self, cuts: u32, row: RowName) -> Option<u32>
        requires { cuts ≤ 16777216 }
        ensures place { result ≡ row_place (relaxation_rows self.now.paths self.now.parts cuts) row }
        ensures row { MatchOption result
            (has_row (relaxation_rows self.now.paths self.now.parts cuts) row ≡ false)
            (λ i. IsRow self.now.paths self.now.parts cuts row) }
    {
        self.find_row(cuts, row)
    }

    /// The number of a column of the relaxation, or `None` exactly where it has no such column. It takes the time of a
    /// search among the tolls or the allowed paths of a commodity.
    pub fn column_place(&self, column: ColumnName) -> Option<u32>
        ensures { result ≡ column_place (relaxation_columns self.now.paths self.now.parts) column }
    {
        let _table = self.table();
        self.find_column(column)
    }

    /// How many columns there are.
    pub fn column_count(&self) -> u32
        ensures count { result ≡ length (relaxation_columns self.now.paths self.now.parts) }
        ensures small { result ≤ 16790144 }
    {
        self.first_paid(self.table().commodities())
    }

    /// Where a row stands.
    fn find_row(&self, cuts: u32, row: RowName) -> Option<u32>
        requires { cuts ≤ 16777216 }
        ensures { IsPlaceIn (relaxation_rows self.now.paths self.now.parts cuts) (IsRow self.now.paths self.now.parts cuts) row result }
    {
        let commodities = self.table().commodities();
        match row {
            RowName::Cap(a) => place_from(0, self.table().tolls(), a),
            RowName::Follow(k, q) => self.table().follow_place(k, q),
            RowName::Below(a, k) => self.pair_place(0, a, k),
            RowName::Use(a, k) => self.pair_place(1, a, k),
            RowName::Link(a, k) => self.pair_place(2, a, k),
            RowName::One(k) => place_from(self.first_pair(3), commodities, k),
            RowName::OneLow(k) => place_from(self.first_pair(3) + commodities, commodities, k),
            RowName::Cut(i) => place_from(self.first_pair(3) + commodities + commodities, cuts, i),
        }
    }

    /// Where a column stands.
    fn find_column(&self, column: ColumnName) -> Option<u32>
        ensures { IsPlaceIn (relaxation_columns self.now.paths self.now.parts) (HasColumn self.now.paths self.now.parts) column result }
    {
        match column {
            ColumnName::Toll(a) => place_from(0, self.table().tolls(), a),
            ColumnName::Share(k, p) => self.share_place(k, p),
            ColumnName::Paid(a, k) => self.paid_place(a, k),
        }
    }

    /// The number of the first row of a kind of rows of a toll and a commodity, behind so many such kinds.
    fn first_pair(&self, kinds: u32) -> u32
        requires { kinds ≤ 3 }
        ensures value { result ≡ pairs_from self.now.paths self.now.parts kinds }
        ensures small { result ≤ 16815744 }
    {
        let table = self.table();
        let commodities = table.commodities();
        table.tolls() + table.paths_below(commodities) + kinds * self.paid_below(commodities)
    }

    /// The number of the row of a toll and a commodity, of the kind behind so many such kinds.
    fn pair_place(&self, kinds: u32, a: u32, k: u32) -> Option<u32>
        requires { kinds < 3 }
        ensures { MatchOption result
            (IsPaidOn self.now.paths self.now.parts a k → ⊥)
            (λ j. (i : ℕ) × (k < length self.now.paths.covers) × (i < length (allowed_tolls self.now.paths self.now.parts k))
            × (slice_index_or (allowed_tolls self.now.paths self.now.parts k) i a ≡ a)
            × (j ≡ pairs_from self.now.paths self.now.parts kinds + sum_below (paid_count self.now.paths self.now.parts) k + i)) }
    {
        let place = self.used_place(a, k)?;
        Some(self.first_pair(kinds) + self.paid_below(k) + place)
    }

    /// The number of the column of a share.
    fn share_place(&self, k: u32, p: u32) -> Option<u32>
        ensures { MatchOption result
            ((k < length self.now.paths.covers) × Contains (part_at self.now.parts k) p → ⊥)
            (λ j. (i : ℕ) × (k < length self.now.paths.covers) × (i < length (part_at self.now.parts k))
            × (slice_index_or (part_at self.now.parts k) i p ≡ p) × (j ≡ shares_from self.now.paths self.now.parts k + i)) }
    {
        if k >= self.table().commodities() {
            return None;
        }
        let place = place_in(self.part(k), p)?;
        Some(self.first_share(k) + place as u32)
    }

    /// The number of the column of what a commodity pays on a toll.
    fn paid_place(&self, a: u32, k: u32) -> Option<u32>
        ensures { MatchOption result
            (IsPaidOn self.now.paths self.now.parts a k → ⊥)
            (λ j. (i : ℕ) × (k < length self.now.paths.covers) × (i < length (allowed_tolls self.now.paths self.now.parts k))
            × (slice_index_or (allowed_tolls self.now.paths self.now.parts k) i a ≡ a) × (j ≡ paid_from self.now.paths self.now.parts k + i)) }
    {
        let place = self.used_place(a, k)?;
        Some(self.first_paid(k) + place)
    }

    /// The place of a toll among those that the allowed paths of a commodity use.
    fn used_place(&self, a: u32, k: u32) -> Option<u32>
        ensures place { MatchOption result
            (IsPaidOn self.now.paths self.now.parts a k → ⊥)
            (λ i. (k < length self.now.paths.covers) × (i < length (allowed_tolls self.now.paths self.now.parts k))
            × (slice_index_or (allowed_tolls self.now.paths self.now.parts k) i a ≡ a)) }
        ensures small { IfSome result (λ i. i < 128) }
    {
        if k >= self.table().commodities() {
            return None;
        }
        let place = place_in(self.used(k), a)?;
        Some(place as u32)
    }
}

impl PathTable<'_> {
    /// The number of a row of the inverse program of a choice, which is the same for each choice, or `None` exactly where
    /// it has no such row.
    pub fn choice_row_place(&self, row: RowName) -> Option<u32>
        ensures place { (choice : List ℕ) → result ≡ row_place (inverse self.now choice).rows row }
        ensures row { MatchOption result ((choice : List ℕ) → has_row (inverse self.now choice).rows row ≡ false) (λ i. IsChoiceRow self.now row) }
    {
        self.find_choice_row(row)
    }

    /// The number of a column of the inverse program of a choice, which is the same for each choice, or `None` exactly where
    /// it has no such column.
    pub fn choice_column_place(&self, column: ColumnName) -> Option<u32>
        ensures { (choice : List ℕ) → result ≡ column_place (inverse self.now choice).columns column }
    {
        self.find_choice_column(column)
    }

    /// Where a row stands.
    fn find_choice_row(&self, row: RowName) -> Option<u32>
        ensures { (choice : List ℕ) → IsPlaceIn (inverse self.now choice).rows (IsChoiceRow self.now) row result }
    {
        match row {
            RowName::Cap(a) => place_from(0, self.tolls(), a),
            RowName::Follow(k, q) => self.follow_place(k, q),
            RowName::Below(_, _)
            | RowName::Use(_, _)
            | RowName::Link(_, _)
            | RowName::One(_)
            | RowName::OneLow(_)
            | RowName::Cut(_) => None,
        }
    }

    /// Where a column stands.
    fn find_choice_column(&self, column: ColumnName) -> Option<u32>
        ensures { (choice : List ℕ) → IsPlaceIn (inverse self.now choice).columns (IsChoiceColumn self.now) column result }
    {
        match column {
            ColumnName::Toll(a) => place_from(0, self.tolls(), a),
            ColumnName::Share(_, _) | ColumnName::Paid(_, _) => None,
        }
    }

    /// The number of the row of a useful path.
    pub(crate) fn follow_place(&self, k: u32, q: u32) -> Option<u32>
        ensures place { MatchOption result
            ((k < length self.now.covers) × (q < path_count self.now k) → ⊥)
            (λ j. (k < length self.now.covers) × (q < path_count self.now k)
            × (j ≡ length self.now.caps + sum_below (path_count self.now) k + q)) }
    {
        if k >= self.commodities() {
            return None;
        }
        let count = self.paths(k).len() as u32;
        place_from(self.tolls() + self.paths_below(k), count, q)
    }
}

/// The number of what is numbered from `base` on, where there are so many.
pub(crate) fn place_from(base: u32, count: u32, i: u32) -> Option<u32>
    requires { base + count < 2 ^ 32 }
    ensures { MatchOption result (count ≤ i) (λ j. (i < count) × (j ≡ base + i)) }
{
    if i < count { Some(base + i) } else { None }
}
