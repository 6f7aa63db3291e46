//! Conflicts: two paths that no tolls make cheapest at once.

ghost use Rattle.std.specs.Prelude.{◌≡◌, ◌<◌, ◌⊎◌, ◌&&◌, nat_lt, true, Err, Ok, Option, Some, length, map, IfOk, OnOk, OnErr, ◌++◌, ◌∷◌, []};
ghost use Rattle.npp_frac.specs.Fits.{limit_of};
ghost use Rattle.npp_lp.specs.Verdict.{unless};
ghost use Rattle.npp_lp.specs.Meaning.{farkas_fault as farkas_fault_of};
ghost use Rattle.npp_rows.specs.declared.cut.CutFault.{CutFault};
ghost use Rattle.npp_rows.specs.RowOrder.{are_rows};
ghost use Rattle.npp_rows.specs.Places.{IsPlaceIn};
ghost use Rattle.npp_rows.specs.Cuts.{IsCut, conflict_cut, share_of};
ghost use Rattle.npp_rows.specs.Inverse.{conflict_program};
ghost use Rattle.npp_rows.specs.Derivations.{is_path as is_path_of, conflict_fault, farkas_cut_fault};
ghost use Rattle.npp_rows.specs.Meaning.{multiplier_value, cut_value, cut_term_value, cut_fault_value, derivation_result};
ghost use Rattle.npp_rows.specs.Rows.{IsConflictRow};
ghost use Rattle.npp_rows.specs.Taken.{AreAdded};
ghost use Rattle.npp_rows.specs.TwoPaths.{AreTwoPaths};

use crate::conflict_rows::TwoPaths;
use crate::cut::{CutFault, CutRow, CutTerm};
use crate::multipliers::{are_in_order, are_positive};
use crate::named_sums::NamedSums;
use crate::names::{Multiplier, RowName};
use crate::places::place_from;
use crate::table::PathTable;
use npp_frac::Exact;
use npp_lp::FarkasFault;
use npp_net::{Listed, Memory};
use std::alloc::Global;

/// The row of a conflict, or the first fault of the multipliers that are to prove it.
pub(crate) fn derive_conflict<N: Exact>(
    alloc: Global,
    table: &PathTable,
    two: TwoPaths,
    multipliers: &[Multiplier<N>],
) -> Result<CutRow<N>, CutFault<N>>
    ensures verdict { (result ≡ Err CutFault.Memory) ⊎ (derivation_result N.rational result
        ≡ unless (conflict_fault (limit_of N.WIDTH) table.now two.k two.p two.l two.q (map (multiplier_value N.rational) multipliers.now)) (Ok (conflict_cut two.k two.p two.l two.q))) }
    ensures cut { IfOk result (λ c. IsCut table.now (cut_value N.rational c)) }
{
    if !are_two_paths(table, two) {
        return Err(CutFault::BadName);
    }
    if !are_conflict_rows(table, two, multipliers) {
        return Err(CutFault::BadName);
    }
    if !are_in_order(multipliers) {
        return Err(CutFault::BadOrder);
    }
    if !are_positive(multipliers) {
        return Err(CutFault::NotPositive);
    }
    let sums = conflict_sums(alloc, table, two, multipliers)?;
    match sums.judge_farkas() {
        Ok(()) => conflict_row(alloc, two),
        Err(fault) => Err(cut_fault(fault)),
    }
}

/// What is wrong with the multipliers of a conflict where they are no Farkas answer.
fn cut_fault<N: Exact>(fault: FarkasFault<N>) -> CutFault<N>
    ensures { Some (cut_fault_value N.rational result) ≡ farkas_cut_fault (Err (farkas_fault_of N.rational fault)) }
{
    match fault {
        FarkasFault::NegativeRow(_) => CutFault::NotPositive,
        FarkasFault::Column(_) => CutFault::Column,
        FarkasFault::NotBelowZero => CutFault::NotBelowZero,
        FarkasFault::Overflow(overflow) => CutFault::Overflow(overflow),
    }
}

/// The row that says that of two paths only one is chosen.
fn conflict_row<N: Exact>(alloc: Global, two: TwoPaths) -> Result<CutRow<N>, CutFault<N>>
    requires { two.k < two.l }
    ensures row { IfOk result (λ c. cut_value N.rational c ≡ conflict_cut two.k two.p two.l two.q) }
    ensures refused { OnErr result (result ≡ Err CutFault.Memory) }
{
    let mut terms = Vec::new(alloc);
    push_share(&mut terms, two.k, two.p)?;
    push_share(&mut terms, two.l, two.q)?;
    Ok(CutRow {
        terms: Listed::of(terms),
        right: N::of_whole(1),
    })
}

/// Adds the share of a path, once.
pub(crate) fn push_share<N: Exact>(
    terms: &mut Vec<CutTerm<N>>,
    k: u32,
    p: u32,
) -> Result<(), Memory>
    ensures { OnOk result (map (cut_term_value N.rational) terms.new.items ≡ map (cut_term_value N.rational) terms.old.items ++ share_of k p ∷ []) }
{
    terms.push(CutTerm {
        commodity: k,
        path: p,
        value: N::of_whole(1),
    })?;
    Ok(())
}

impl PathTable<'_> {
    /// Whether a commodity has a useful path of this number.
    pub(crate) fn has_path(&self, k: u32, p: u32) -> bool
        ensures { result ≡ is_path_of self.now k p }
    {
        k < self.commodities() && (p as usize) < self.paths(k).len()
    }
}

/// Whether these are useful paths of two commodities, the lower one first.
fn are_two_paths(table: &PathTable, two: TwoPaths) -> bool
    ensures { result ≡ (nat_lt two.k two.l && is_path_of table.now two.k two.p && is_path_of table.now two.l two.q) }
{
    two.k < two.l && table.has_path(two.k, two.p) && table.has_path(two.l, two.q)
}

/// Whether the program of the conflict has each of these rows.
fn are_conflict_rows<N: Exact>(
    table: &PathTable,
    two: TwoPaths,
    multipliers: &[Multiplier<N>],
) -> bool
    requires { AreTwoPaths table.now two.k two.p two.l two.q }
    ensures { result ≡ are_rows (conflict_program table.now two.k two.p two.l two.q).rows (map (multiplier_value N.rational) multipliers.now) }
{
    for multiplier in multipliers {
        if conflict_place(table, two, multiplier.row).is_none() {
            return false;
        }
    }
    true
}

/// The sums of the rows of the program of a conflict.
fn conflict_sums<N: Exact>(
    alloc: Global,
    table: &PathTable,
    two: TwoPaths,
    multipliers: &[Multiplier<N>],
) -> Result<NamedSums<N>, Memory>
    requires paths { AreTwoPaths table.now two.k two.p two.l two.q }
    requires rows { are_rows (conflict_program table.now two.k two.p two.l two.q).rows (map (multiplier_value N.rational) multipliers.now) ≡ true }
    ensures { IfOk result (λ s. AreAdded N.rational (limit_of N.WIDTH) (conflict_program table.now two.k two.p two.l two.q) (map (multiplier_value N.rational) multipliers.now) s) }
{
    let mut sums = NamedSums::new(alloc, table.tolls())?;
    for multiplier in multipliers {
        let place = conflict_place(table, two, multiplier.row).unwrap();
        sums.add_for_conflict(table, two, place, *multiplier)?;
    }
    Ok(sums)
}

/// The number of a row of the program of a conflict, or `None` exactly where it has no such row.
fn conflict_place(table: &PathTable, two: TwoPaths, row: RowName) -> Option<u32>
    requires { AreTwoPaths table.now two.k two.p two.l two.q }
    ensures { IsPlaceIn (conflict_program table.now two.k two.p two.l two.q).rows (IsConflictRow table.now two.k two.l) row result }
{
    let count = table.paths(two.k).len() as u32;
    match row {
        RowName::Cap(a) => place_from(0, table.tolls(), a),
        RowName::Follow(c, q) if c == two.k => place_from(table.tolls(), count, q),
        RowName::Follow(c, q) if c == two.l => {
            place_from(table.tolls() + count, table.paths(c).len() as u32, q)
        }
        _ => None,
    }
}
