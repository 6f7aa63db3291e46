//! Combinations of rows, rounded down.

ghost use Rattle.std.specs.Prelude.{◌≡◌, ◌<◌, ◌≤◌, ◌⊎◌, ◌++◌, not, true, Err, Ok, Some, None, length, map, All, IfOk, OnOk, MatchResult};
ghost use Rattle.npp_frac.specs.Fits.{limit_of};
ghost use Rattle.npp_frac.specs.Sign.{is_zero as is_zero_of};
ghost use Rattle.npp_lp.specs.Meaning.{sum_result};
ghost use Rattle.npp_lp.specs.RunningSums.{AreSumsOf};
ghost use Rattle.npp_lp.specs.Verdict.{unless, first_below, sum_fault};
ghost use Rattle.npp_rows.specs.declared.cut.CutFault.{CutFault};
ghost use Rattle.npp_rows.specs.declared.names.ColumnName.TheVariants.{Share as share_column};
ghost use Rattle.npp_rows.specs.RowOrder.{are_rows, multipliers_of};
ghost use Rattle.npp_rows.specs.Cuts.{IsCut};
ghost use Rattle.npp_rows.specs.Relax.{relaxation, relaxation_rows, relaxation_columns};
ghost use Rattle.npp_rows.specs.Derivations.{whole_relaxation, round_fault, round_cut, rounded as rounded_of, share_term, fault_if, column_at};
ghost use Rattle.npp_rows.specs.Meaning.{multiplier_value, cut_value, cut_term_value, cut_fault_value, derivation_result};
ghost use Rattle.npp_rows.specs.Rounding.{toll_fault, toll_fault_at, share_fault, share_fault_at, rounding_fault, sum_or_zero, rounded_sums, rounded_cut};
ghost use Rattle.npp_rows.specs.Named.{numbered};
ghost use Rattle.npp_rows.specs.Taken.{placed};

use crate::cut::{CutFault, CutRow, CutTerm};
use crate::index::RelaxationIndex;
use crate::multipliers::{are_in_order, are_positive};
use crate::names::{ColumnName, Multiplier};
use crate::table::PathTable;
use crate::touched_sums::TouchedSums;
use npp_frac::{Exact, Overflow, is_zero};
use npp_net::{Listed, Memory};
use std::alloc::Global;

/// The rounded combination of rows of the relaxation over all useful paths, or the first fault of its multipliers. It makes
/// their index, in the time of the paths and of the tolls of each commodity.
pub(crate) fn derive_round<N: Exact>(
    alloc: Global,
    table: &PathTable,
    earlier: &[CutRow<N>],
    multipliers: &[Multiplier<N>],
) -> Result<CutRow<N>, CutFault<N>>
    requires earlier { All (λ c. IsCut table.now (cut_value N.rational c)) earlier.now }
    requires few { length earlier.now ≤ 16777216 }
    ensures verdict { (result ≡ Err CutFault.Memory) ⊎ (derivation_result N.rational result
        ≡ unless (round_fault (limit_of N.WIDTH) (whole_relaxation table.now (map (cut_value N.rational) earlier.now)) (map (multiplier_value N.rational) multipliers.now))
        (Ok (round_cut (whole_relaxation table.now (map (cut_value N.rational) earlier.now))
        (multipliers_of (whole_relaxation table.now (map (cut_value N.rational) earlier.now)).rows (map (multiplier_value N.rational) multipliers.now))))) }
    ensures cut { IfOk result (λ c. IsCut table.now (cut_value N.rational c)) }
{
    // The table tells that each commodity has a path.
    let _commodities = table.commodities();
    let whole = table.all_paths(alloc)?;
    let index = RelaxationIndex::new(alloc, table, &whole)?;
    index.round(alloc, earlier, multipliers)
}

impl RelaxationIndex<'_> {
    /// The rounded combination of rows of the relaxation, or the first fault of its multipliers. It takes the time of the
    /// entries of the named rows, of putting their columns in order, and of a search among these for each entry.
    pub(crate) fn round<N: Exact>(
        &self,
        alloc: Global,
        earlier: &[CutRow<N>],
        multipliers: &[Multiplier<N>],
    ) -> Result<CutRow<N>, CutFault<N>>
        requires earlier { All (λ c. IsCut self.now.paths (cut_value N.rational c)) earlier.now }
        requires few { length earlier.now ≤ 16777216 }
        ensures verdict { (result ≡ Err CutFault.Memory) ⊎ (derivation_result N.rational result
            ≡ unless (round_fault (limit_of N.WIDTH) (relaxation self.now.paths self.now.parts (map (cut_value N.rational) earlier.now)) (map (multiplier_value N.rational) multipliers.now))
            (Ok (round_cut (relaxation self.now.paths self.now.parts (map (cut_value N.rational) earlier.now))
            (multipliers_of (relaxation self.now.paths self.now.parts (map (cut_value N.rational) earlier.now)).rows (map (multiplier_value N.rational) multipliers.now))))) }
        ensures cut { IfOk result (λ c. IsCut self.now.paths (cut_value N.rational c)) }
    {
        // The table tells that the family is allowed.
        let _table = self.table();
        if !self.are_rows(earlier.len() as u32, multipliers) {
            return Err(CutFault::BadName);
        }
        if !are_in_order(multipliers) {
            return Err(CutFault::BadOrder);
        }
        if !are_positive(multipliers) {
            return Err(CutFault::NotPositive);
        }
        let sums = self.sums(alloc, earlier, multipliers)?;
        self.tolls_cancel(&sums)?;
        self.rounded(alloc, &sums)
    }

    /// Whether the relaxation with so many cuts has each of these rows.
    fn are_rows<N: Exact>(&self, cuts: u32, multipliers: &[Multiplier<N>]) -> bool
        requires { cuts ≤ 16777216 }
        ensures { result ≡ are_rows (relaxation_rows self.now.paths self.now.parts cuts) (map (multiplier_value N.rational) multipliers.now) }
    {
        for multiplier in multipliers {
            if self.row_place(cuts, multiplier.row).is_none() {
                return false;
            }
        }
        true
    }

    /// The sums of rows of the relaxation with some cuts, over the columns in which they stand.
    fn sums<N: Exact>(
        &self,
        alloc: Global,
        cuts: &[CutRow<N>],
        multipliers: &[Multiplier<N>],
    ) -> Result<TouchedSums<N>, Memory>
        requires cuts { All (λ c. IsCut self.now.paths (cut_value N.rational c)) cuts.now }
        requires few { length cuts.now ≤ 16777216 }
        requires rows { are_rows (relaxation_rows self.now.paths self.now.parts (length cuts.now)) (map (multiplier_value N.rational) multipliers.now) ≡ true }
        ensures { IfOk result (λ s. AreSumsOf (limit_of N.WIDTH) (numbered (relaxation self.now.paths self.now.parts (map (cut_value N.rational) cuts.now)))
            (placed (relaxation self.now.paths self.now.parts (map (cut_value N.rational) cuts.now)).rows (map (multiplier_value N.rational) multipliers.now)) s.all) }
    {
        let columns = self.touched(alloc, cuts, multipliers)?;
        let mut sums = TouchedSums::new(alloc, self.column_count(), columns)?;
        let mut entries = Vec::new(alloc);
        for multiplier in multipliers {
            let place = self.row_place(cuts.len() as u32, multiplier.row).unwrap();
            self.write_row(cuts, multiplier.row, &mut entries)?;
            let right = self.right_side(cuts, multiplier.row);
            sums.add_row(place, &entries, right, multiplier.value)?;
        }
        Ok(sums)
    }

    /// The first fault of the columns that are no shares: a sum that does not fit, or is not 0. It looks at the columns that
    /// hold the sums alone.
    fn tolls_cancel<N: Exact>(&self, sums: &TouchedSums<N>) -> Result<(), CutFault<N>>
        requires size { length sums.now.all.columns ≡ length (relaxation_columns self.now.paths self.now.parts) }
        ensures { MatchResult result
            (λ _. first_below (length (relaxation_columns self.now.paths self.now.parts)) (toll_fault_at (relaxation_columns self.now.paths self.now.parts) sums.now.all) ≡ None)
            (λ e. first_below (length (relaxation_columns self.now.paths self.now.parts)) (toll_fault_at (relaxation_columns self.now.paths self.now.parts) sums.now.all) ≡ Some (cut_fault_value N.rational e)) }
    {
        let columns = sums.columns();
        for (i, column) in columns.iter().enumerate() {
            self.judge_toll(sums.sum_at(i), *column)?;
        }
        Ok(())
    }

    /// The fault of the sum of a column, if it is no share.
    fn judge_toll<N: Exact>(
        &self,
        sum: Result<N, Overflow<N>>,
        column: u32,
    ) -> Result<(), CutFault<N>>
        requires { column < length (relaxation_columns self.now.paths self.now.parts) }
        ensures { MatchResult result
            (λ _. toll_fault (column_at (relaxation_columns self.now.paths self.now.parts) column) (sum_result N.rational sum) ≡ None)
            (λ e. toll_fault (column_at (relaxation_columns self.now.paths self.now.parts) column) (sum_result N.rational sum) ≡ Some (cut_fault_value N.rational e)) }
    {
        if self.is_share(column) {
            return Ok(());
        }
        cancels(sum)
    }

    /// The row of the rounded sums of the shares, or the first of these sums that does not fit.
    fn rounded<N: Exact>(
        &self,
        alloc: Global,
        sums: &TouchedSums<N>,
    ) -> Result<CutRow<N>, CutFault<N>>
        requires size { length sums.now.all.columns ≡ length (relaxation_columns self.now.paths self.now.parts) }
        ensures { (result ≡ Err CutFault.Memory) ⊎ (derivation_result N.rational result
            ≡ unless (rounding_fault (relaxation_columns self.now.paths self.now.parts) sums.now.all)
            (Ok (rounded_cut (relaxation_columns self.now.paths self.now.parts) sums.now.all))) }
    {
        let terms = self.rounded_terms(alloc, sums)?;
        match sums.right() {
            Ok(sum) => Ok(CutRow {
                terms: Listed::of(terms),
                right: rounded_down(sum),
            }),
            Err(overflow) => Err(CutFault::Overflow(overflow)),
        }
    }

    /// The terms of the rounded sums of the shares, or the first of these sums that does not fit.
    fn rounded_terms<N: Exact>(
        &self,
        alloc: Global,
        sums: &TouchedSums<N>,
    ) -> Result<Vec<CutTerm<N>>, CutFault<N>>
        requires size { length sums.now.all.columns ≡ length (relaxation_columns self.now.paths self.now.parts) }
        ensures { MatchResult result
            (λ v. (first_below (length (relaxation_columns self.now.paths self.now.parts)) (share_fault_at (relaxation_columns self.now.paths self.now.parts) sums.now.all) ≡ None)
            × (map (cut_term_value N.rational) v.items ≡ rounded_sums sums.now.all 0 (relaxation_columns self.now.paths self.now.parts)))
            (λ e. (e ≡ CutFault.Memory)
            ⊎ (first_below (length (relaxation_columns self.now.paths self.now.parts)) (share_fault_at (relaxation_columns self.now.paths self.now.parts) sums.now.all) ≡ Some (cut_fault_value N.rational e))) }
    {
        let columns = sums.columns();
        let mut terms = Vec::new(alloc);
        for (i, column) in columns.iter().enumerate() {
            self.push_rounded(&mut terms, sums.sum_at(i), *column)?;
        }
        Ok(terms)
    }

    /// Adds the term of the rounded sum of a column, if it is a share, or tells that its sum does not fit.
    fn push_rounded<N: Exact>(
        &self,
        terms: &mut Vec<CutTerm<N>>,
        sum: Result<N, Overflow<N>>,
        column: u32,
    ) -> Result<(), CutFault<N>>
        requires { column < length (relaxation_columns self.now.paths self.now.parts) }
        ensures { MatchResult result
            (λ _. (share_fault (column_at (relaxation_columns self.now.paths self.now.parts) column) (sum_result N.rational sum) ≡ None)
            × (map (cut_term_value N.rational) terms.new.items
            ≡ map (cut_term_value N.rational) terms.old.items ++ share_term (column_at (relaxation_columns self.now.paths self.now.parts) column) (rounded_of (sum_or_zero (sum_result N.rational sum)))))
            (λ e. (e ≡ CutFault.Memory)
            ⊎ (share_fault (column_at (relaxation_columns self.now.paths self.now.parts) column) (sum_result N.rational sum) ≡ Some (cut_fault_value N.rational e))) }
    {
        if !self.is_share(column) {
            return Ok(());
        }
        push_share(terms, sum, self.share_at(column))
    }
}

/// Whether a sum is 0, or its fault.
fn cancels<N: Exact>(sum: Result<N, Overflow<N>>) -> Result<(), CutFault<N>>
    ensures { MatchResult result
        (λ _. sum_fault CutFault.Overflow (λ x. fault_if (not (is_zero_of x)) CutFault.TollColumn) (sum_result N.rational sum) ≡ None)
        (λ e. sum_fault CutFault.Overflow (λ x. fault_if (not (is_zero_of x)) CutFault.TollColumn) (sum_result N.rational sum) ≡ Some (cut_fault_value N.rational e)) }
{
    match sum {
        Ok(sum) if is_zero(sum) => Ok(()),
        Ok(_) => Err(CutFault::TollColumn),
        Err(overflow) => Err(CutFault::Overflow(overflow)),
    }
}

/// Adds the term of the rounded sum of a column, if it is a share, or tells that its sum does not fit.
fn push_share<N: Exact>(
    terms: &mut Vec<CutTerm<N>>,
    sum: Result<N, Overflow<N>>,
    column: ColumnName,
) -> Result<(), CutFault<N>>
    ensures { MatchResult result
        (λ _. (share_fault column (sum_result N.rational sum) ≡ None)
        × (map (cut_term_value N.rational) terms.new.items
        ≡ map (cut_term_value N.rational) terms.old.items ++ share_term column (rounded_of (sum_or_zero (sum_result N.rational sum)))))
        (λ e. (e ≡ CutFault.Memory) ⊎ (share_fault column (sum_result N.rational sum) ≡ Some (cut_fault_value N.rational e))) }
{
    let ColumnName::Share(k, p) = column else {
        return Ok(());
    };
    match sum {
        Ok(sum) => {
            push_term(terms, k, p, rounded_down(sum))?;
            Ok(())
        }
        Err(overflow) => Err(CutFault::Overflow(overflow)),
    }
}

/// The greatest whole number that is not above a number.
fn rounded_down<N: Exact>(number: N) -> N
    ensures { N.rational result ≡ rounded_of (N.rational number) }
{
    number.floor()
}

/// Adds a term, where its value is not 0.
fn push_term<N: Exact>(terms: &mut Vec<CutTerm<N>>, k: u32, p: u32, value: N) -> Result<(), Memory>
    ensures { OnOk result (map (cut_term_value N.rational) terms.new.items ≡ map (cut_term_value N.rational) terms.old.items ++ share_term (share_column k p) (N.rational value)) }
{
    if !is_zero(value) {
        terms.push(CutTerm {
            commodity: k,
            path: p,
            value,
        })?;
    }
    Ok(())
}
