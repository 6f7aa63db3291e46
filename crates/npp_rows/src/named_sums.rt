//! Sums of named rows with their multipliers, without a program in memory.

ghost use Rattle.std.specs.Prelude.{◌≡◌, ◌≤◌, ◌⊎◌, ℕ, List, [], ◌∷◌, ◌++◌, Option, Some, None, length, map, All, IfOk, OnOk, OnErr, MatchResult};
ghost use Rattle.npp_frac.specs.Rational.{Rational};
ghost use Rattle.npp_frac.specs.Fits.{limit_of};
ghost use Rattle.npp_lp.specs.Meaning.{dual_result, farkas_result};
ghost use Rattle.npp_lp.specs.DualVerdict.{dual_verdict};
ghost use Rattle.npp_lp.specs.FarkasVerdict.{farkas_verdict};
ghost use Rattle.npp_rows.specs.declared.names.RowName.{RowName};
ghost use Rattle.npp_rows.specs.declared.names.Multiplier.{Multiplier};
ghost use Rattle.npp_rows.specs.declared.multiplier_fault.MultiplierFault.{MultiplierFault};
ghost use Rattle.npp_rows.specs.RowOrder.{DoRise, multipliers_of};
ghost use Rattle.npp_rows.specs.Places.{row_place};
ghost use Rattle.npp_rows.specs.Named.{NamedProgram, numbered};
ghost use Rattle.npp_rows.specs.Cuts.{IsCut};
ghost use Rattle.npp_rows.specs.Meaning.{cut_value, multiplier_value};
ghost use Rattle.npp_rows.specs.Relax.{relaxation, relaxation_rows, relaxation_columns};
ghost use Rattle.npp_rows.specs.Inverse.{inverse, conflict_program};
ghost use Rattle.npp_rows.specs.Rows.{IsChoice};
ghost use Rattle.npp_rows.specs.TwoPaths.{AreTwoPaths};
ghost use Rattle.npp_rows.specs.Taken.{next_fault, AreAdded, AreTaken};

use crate::choice::{choice_right, write_choice_row};
use crate::conflict_rows::{TwoPaths, conflict_right, write_conflict_row};
use crate::cut::CutRow;
use crate::index::RelaxationIndex;
use crate::multiplier_fault::MultiplierFault;
use crate::names::{Multiplier, RowName};
use crate::table::PathTable;
use npp_frac::{Exact, is_positive};
use npp_lp::{DualFault, Entry, FarkasFault, RunningSums};
use npp_net::Memory;
use std::alloc::Global;
use std::marker::Model;

/// The sums of the rows of a program, each times its multiplier: of each column, and of the right sides.
///
/// Rows are named one after the other, by rising names and each with a multiplier above 0; rows that are not named have the
/// multiplier 0. No program has to be at hand: the entries of a row are written as it is named, and taking it costs these
/// entries alone. Contracts see the last row and the sums, and speak of every list of multipliers that they may stand for.
#[derive(Drop)]
pub struct NamedSums<N: Exact> {
    last: Option<RowName>,
    sums: RunningSums<N>,
    entries: Vec<Entry<N>>,
}

impl<N: Exact> Model for NamedSums<N> {
    ghost use Rattle.npp_rows.specs.TwoPaths.{AreTwoPaths};
    ghost use Rattle.npp_rows.specs.Taken.{Taken};

    ghost Value = { Taken N };

    ghost view = { λ s. record { last = s.last; sums = s.sums } };
}

impl<N: Exact> NamedSums<N> {
    /// Sums over so many columns, with no row yet.
    pub fn new(alloc: Global, columns: u32) -> Result<Self, Memory>
        ensures columns { IfOk result (λ s. length s.sums.columns ≡ columns) }
        ensures empty { IfOk result (λ s. (p : NamedProgram) → length p.columns ≡ columns → AreTaken N.rational (limit_of N.WIDTH) p [] s) }
    {
        let sums = match RunningSums::new(alloc, columns) {
            Ok(sums) => sums,
            Err(_) => return Err(Memory),
        };
        Ok(NamedSums {
            last: None,
            sums,
            entries: Vec::new(alloc),
        })
    }

    /// Takes all rows out, to begin anew over the same columns.
    pub fn clear(&mut self)
        ensures columns { length self.new.sums.columns ≡ length self.old.sums.columns }
        ensures empty { (p : NamedProgram) → length p.columns ≡ length self.old.sums.columns → AreTaken N.rational (limit_of N.WIDTH) p [] self.new }
    {
        self.last = None;
        self.sums.clear();
    }

    /// Takes a row of a relaxation with some cuts, with its multiplier. A refused multiplier changes nothing.
    pub fn take(
        &mut self,
        index: &RelaxationIndex,
        cuts: &[CutRow<N>],
        multiplier: Multiplier<N>,
    ) -> Result<(), MultiplierFault>
        requires cuts { All (λ c. IsCut index.now.paths (cut_value N.rational c)) cuts.now }
        requires few { length cuts.now ≤ 16777216 }
        requires columns { length self.old.sums.columns ≡ length (relaxation_columns index.now.paths index.now.parts) }
        ensures taken { (ys : List (Multiplier Rational))
            → AreTaken N.rational (limit_of N.WIDTH) (relaxation index.now.paths index.now.parts (map (cut_value N.rational) cuts.now)) ys self.old
            → OnOk result (AreTaken N.rational (limit_of N.WIDTH) (relaxation index.now.paths index.now.parts (map (cut_value N.rational) cuts.now)) (ys ++ multiplier_value N.rational multiplier ∷ []) self.new) }
        ensures fault { MatchResult result
            (λ _. next_fault (relaxation index.now.paths index.now.parts (map (cut_value N.rational) cuts.now)).rows self.old.last (multiplier_value N.rational multiplier) ≡ None)
            (λ e. (e ≡ MultiplierFault.Memory)
            ⊎ (next_fault (relaxation index.now.paths index.now.parts (map (cut_value N.rational) cuts.now)).rows self.old.last (multiplier_value N.rational multiplier) ≡ Some e)) }
        ensures kept { OnErr result (self.new ≡ self.old) }
        ensures columns { length self.new.sums.columns ≡ length self.old.sums.columns }
    {
        let place = judged(
            index.row_place(cuts.len() as u32, multiplier.row),
            self.last,
            multiplier,
        )?;
        self.add(index, cuts, place, multiplier)?;
        Ok(())
    }

    /// Adds a row of a relaxation with some cuts, which stands at this place, with its multiplier.
    fn add(
        &mut self,
        index: &RelaxationIndex,
        cuts: &[CutRow<N>],
        place: u32,
        multiplier: Multiplier<N>,
    ) -> Result<(), Memory>
        requires cuts { All (λ c. IsCut index.now.paths (cut_value N.rational c)) cuts.now }
        requires columns { length self.old.sums.columns ≡ length (relaxation_columns index.now.paths index.now.parts) }
        requires place { row_place (relaxation_rows index.now.paths index.now.parts (length cuts.now)) multiplier.row ≡ Some place }
        ensures sums { (ys : List (Multiplier Rational))
            → AreAdded N.rational (limit_of N.WIDTH) (relaxation index.now.paths index.now.parts (map (cut_value N.rational) cuts.now)) ys self.old
            → OnOk result (AreAdded N.rational (limit_of N.WIDTH) (relaxation index.now.paths index.now.parts (map (cut_value N.rational) cuts.now)) (ys ++ multiplier_value N.rational multiplier ∷ []) self.new) }
        ensures kept { OnErr result (self.new ≡ self.old) }
        ensures columns { length self.new.sums.columns ≡ length self.old.sums.columns }
    {
        index.write_row(cuts, multiplier.row, &mut self.entries)?;
        let right = index.right_side(cuts, multiplier.row);
        self.sums
            .add_row(place, &self.entries, right, multiplier.value);
        self.last = Some(multiplier.row);
        Ok(())
    }

    /// Takes a row of the inverse program of a choice, with its multiplier. A refused multiplier changes nothing.
    pub fn take_for_choice(
        &mut self,
        table: &PathTable,
        choice: &[u32],
        multiplier: Multiplier<N>,
    ) -> Result<(), MultiplierFault>
        requires choice { IsChoice table.now choice.now }
        requires columns { length self.old.sums.columns ≡ length table.now.caps }
        ensures taken { (ys : List (Multiplier Rational))
            → AreTaken N.rational (limit_of N.WIDTH) (inverse table.now choice.now) ys self.old
            → OnOk result (AreTaken N.rational (limit_of N.WIDTH) (inverse table.now choice.now) (ys ++ multiplier_value N.rational multiplier ∷ []) self.new) }
        ensures fault { MatchResult result
            (λ _. next_fault (inverse table.now choice.now).rows self.old.last (multiplier_value N.rational multiplier) ≡ None)
            (λ e. (e ≡ MultiplierFault.Memory) ⊎ (next_fault (inverse table.now choice.now).rows self.old.last (multiplier_value N.rational multiplier) ≡ Some e)) }
        ensures kept { OnErr result (self.new ≡ self.old) }
        ensures columns { length self.new.sums.columns ≡ length self.old.sums.columns }
    {
        let place = judged(
            table.choice_row_place(multiplier.row),
            self.last,
            multiplier,
        )?;
        self.add_for_choice(table, choice, place, multiplier)?;
        Ok(())
    }

    /// Adds a row of the inverse program of a choice, which stands at this place, with its multiplier.
    fn add_for_choice(
        &mut self,
        table: &PathTable,
        choice: &[u32],
        place: u32,
        multiplier: Multiplier<N>,
    ) -> Result<(), Memory>
        requires choice { IsChoice table.now choice.now }
        requires columns { length self.old.sums.columns ≡ length table.now.caps }
        requires place { row_place (inverse table.now choice.now).rows multiplier.row ≡ Some place }
        ensures sums { (ys : List (Multiplier Rational))
            → AreAdded N.rational (limit_of N.WIDTH) (inverse table.now choice.now) ys self.old
            → OnOk result (AreAdded N.rational (limit_of N.WIDTH) (inverse table.now choice.now) (ys ++ multiplier_value N.rational multiplier ∷ []) self.new) }
        ensures kept { OnErr result (self.new ≡ self.old) }
        ensures columns { length self.new.sums.columns ≡ length self.old.sums.columns }
    {
        write_choice_row(table, choice, multiplier.row, &mut self.entries)?;
        let right = choice_right(table, choice, multiplier.row);
        self.sums
            .add_row(place, &self.entries, right, multiplier.value);
        self.last = Some(multiplier.row);
        Ok(())
    }

    /// Adds a row of the program of a conflict, which stands at this place, with its multiplier.
    pub(crate) fn add_for_conflict(
        &mut self,
        table: &PathTable,
        two: TwoPaths,
        place: u32,
        multiplier: Multiplier<N>,
    ) -> Result<(), Memory>
        requires paths { AreTwoPaths table.now two.k two.p two.l two.q }
        requires columns { length self.old.sums.columns ≡ length table.now.caps }
        requires place { row_place (conflict_program table.now two.k two.p two.l two.q).rows multiplier.row ≡ Some place }
        ensures sums { (ys : List (Multiplier Rational))
            → AreAdded N.rational (limit_of N.WIDTH) (conflict_program table.now two.k two.p two.l two.q) ys self.old
            → OnOk result (AreAdded N.rational (limit_of N.WIDTH) (conflict_program table.now two.k two.p two.l two.q) (ys ++ multiplier_value N.rational multiplier ∷ []) self.new) }
        ensures columns { length self.new.sums.columns ≡ length self.old.sums.columns }
    {
        write_conflict_row(table, two, multiplier.row, &mut self.entries)?;
        let right = conflict_right(table, two, multiplier.row);
        self.sums
            .add_row(place, &self.entries, right, multiplier.value);
        self.last = Some(multiplier.row);
        Ok(())
    }

    /// The value of the multipliers as a dual answer of their program, whose goal this is, or why they are none: what
    /// [`check_dual`](npp_lp::check_dual) answers, with 0 for each row that was not named.
    pub fn judge_dual(&self, goal: &[N]) -> Result<N, DualFault<N>>
        requires { length goal.now ≡ length self.now.sums.columns }
        ensures { (p : NamedProgram) (ys : List (Multiplier Rational)) → DoRise p.rows → map N.rational goal.now ≡ map p.goal p.columns
            → AreTaken N.rational (limit_of N.WIDTH) p ys self.now
            → dual_result N.rational result ≡ dual_verdict (limit_of N.WIDTH) (numbered p) (multipliers_of p.rows ys) }
    {
        self.sums.judge_dual(goal)
    }

    /// Whether the multipliers are a Farkas answer of their program, or why they are none: what
    /// [`check_farkas`](npp_lp::check_farkas) answers, with 0 for each row that was not named.
    pub fn judge_farkas(&self) -> Result<(), FarkasFault<N>>
        ensures { (p : NamedProgram) (ys : List (Multiplier Rational)) → DoRise p.rows
            → AreTaken N.rational (limit_of N.WIDTH) p ys self.now
            → farkas_result N.rational result ≡ farkas_verdict (limit_of N.WIDTH) (numbered p) (multipliers_of p.rows ys) }
    {
        self.sums.judge_farkas()
    }
}

/// The place of the row of a multiplier, or why it cannot follow the last row.
fn judged<N: Exact>(
    place: Option<u32>,
    last: Option<RowName>,
    multiplier: Multiplier<N>,
) -> Result<u32, MultiplierFault>
    ensures { (rows : List RowName) → place ≡ row_place rows multiplier.row → MatchResult result
        (λ i. (place ≡ Some i) × (next_fault rows last (multiplier_value N.rational multiplier) ≡ None))
        (λ e. next_fault rows last (multiplier_value N.rational multiplier) ≡ Some e) }
{
    let Some(place) = place else {
        return Err(MultiplierFault::NoSuchRow);
    };
    if !multiplier.row.is_after(last) {
        return Err(MultiplierFault::NotAfter);
    }
    if !is_positive(multiplier.value) {
        return Err(MultiplierFault::NotPositive);
    }
    Ok(place)
}
