//! Sums of columns and of right sides, formed row by row.

ghost use Rattle.std.specs.Prelude.{◌≡◌, ◌<◌, length, slice_index_or, map, All, IfOk};
ghost use Rattle.std.specs.List.{AllPairs};
ghost use Rattle.npp_frac.specs.Rational.{zero_ℚ};
ghost use Rattle.npp_frac.specs.Fits.{limit_of};
ghost use Rattle.npp_lp.specs.Meaning.{terms_of, sum_result, dual_result, farkas_result};
ghost use Rattle.npp_lp.specs.RunningSums.{sums_meant, column_of, joined as joined_of, with_term, with_right, AreEmpty, TakesRow, dual_of_sums, farkas_of_sums};

use crate::faults::{DualFault, FarkasFault};
use crate::program::Entry;
use crate::sums::add_product;
use npp_frac::{Exact, Memory, Overflow, is_below, is_negative};
use std::alloc::Global;
use std::marker::Model;

/// The sums of a program's rows, each row times its multiplier: of each column, and of the right sides.
///
/// Rows are taken one after the other, by rising number, and rows with the multiplier 0 may be left out; no program has to
/// be at hand. Taking a row costs its entries alone. A sum that does not fit keeps its first operation that did not, until
/// the sums are judged, in the order of [`check_dual`](crate::check_dual) and of [`check_farkas`](crate::check_farkas).
#[derive(Drop)]
pub struct RunningSums<N: Exact> {
    negative: Option<u32>,
    columns: Vec<Result<N, Overflow<N>>>,
    right: Result<N, Overflow<N>>,
}

impl<N: Exact> Model for RunningSums<N> {
    ghost use Rattle.std.specs.Prelude.{◌<◌, ◌^◌, length};
    ghost use Rattle.npp_lp.specs.RunningSums.{Sums};

    ghost Value = { Sums N };

    ghost view = { λ s. record { negative = s.negative; columns = s.columns.items; right = s.right } };

    ghost invariant = { λ s. length s.columns.items < 2 ^ 32 };
}

/// The sum with a product added to it, unless an earlier operation did not fit.
fn joined<N: Exact>(sum: Result<N, Overflow<N>>, a: N, b: N) -> Result<N, Overflow<N>>
    ensures { sum_result N.rational result ≡ joined_of (limit_of N.WIDTH) (sum_result N.rational sum) (N.rational a) (N.rational b) }
{
    match sum {
        Ok(sum) => add_product(sum, a, b),
        Err(overflow) => Err(overflow),
    }
}

/// So many sums of no products.
fn empty_sums<N: Exact>(alloc: Global, count: u32) -> Result<Vec<Result<N, Overflow<N>>>, Memory>
    ensures size { IfOk result (λ sums. length sums.items ≡ count) }
    ensures empty { IfOk result (λ sums. All (λ s. sum_result N.rational s ≡ Ok zero_ℚ) sums.items) }
{
    let mut sums = Vec::new(alloc);
    for _i in 0..count {
        match sums.push(Ok(N::of_whole(0))) {
            Ok(()) => {}
            Err(_) => return Err(Memory),
        }
    }
    Ok(sums)
}

/// Takes all products out of some sums.
fn empty<N: Exact>(sums: &mut [Result<N, Overflow<N>>])
    ensures { All (λ s. sum_result N.rational s ≡ Ok zero_ℚ) sums.new }
{
    for sum in sums.iter_mut() {
        *sum = Ok(N::of_whole(0));
    }
}

impl<N: Exact> RunningSums<N> {
    /// Sums over so many columns, with no row yet.
    pub fn new(alloc: Global, columns: u32) -> Result<Self, Memory>
        ensures { IfOk result (λ s. AreEmpty columns (sums_meant N.rational s)) }
    {
        Ok(RunningSums {
            negative: None,
            columns: empty_sums(alloc, columns)?,
            right: Ok(N::of_whole(0)),
        })
    }

    /// Takes all rows out, to begin anew over the same columns.
    pub fn clear(&mut self)
        ensures { AreEmpty (length self.old.columns) (sums_meant N.rational self.new) }
    {
        empty(self.columns.as_mut_slice());
        self.negative = None;
        self.right = Ok(N::of_whole(0));
    }

    /// How many columns there are.
    pub fn column_count(&self) -> u32
        ensures { result ≡ length self.now.columns }
    {
        self.columns.len() as u32
    }

    /// The sum of a column, or its first operation that did not fit.
    #[inline]
    pub fn column(&self, column: u32) -> Result<N, Overflow<N>>
        requires { column < length self.now.columns }
        ensures { sum_result N.rational result ≡ column_of (sums_meant N.rational self.now) column }
    {
        self.columns[column as usize]
    }

    /// The sum of the right sides, or its first operation that did not fit.
    pub fn right(&self) -> Result<N, Overflow<N>>
        ensures { sum_result N.rational result ≡ (sums_meant N.rational self.now).right }
    {
        self.right
    }

    /// The first row whose multiplier is below 0.
    fn negative_row(&self) -> Option<u32>
        ensures { result ≡ self.now.negative }
    {
        self.negative
    }

    /// Takes an entry of a row, with the multiplier of the row. [`end_row`](RunningSums::end_row) follows the last entry.
    #[inline]
    pub fn add_entry(&mut self, column: u32, value: N, multiplier: N)
        requires { column < length self.old.columns }
        ensures { sums_meant N.rational self.new ≡ with_term (limit_of N.WIDTH) (sums_meant N.rational self.old) (record { column = column; value = N.rational value }) (N.rational multiplier) }
    {
        let sum = self.columns[column as usize];
        self.columns[column as usize] = joined(sum, value, multiplier);
    }

    /// Takes the right side of a row behind its entries, with the number and the multiplier of the row.
    pub fn end_row(&mut self, row: u32, right: N, multiplier: N)
        ensures { sums_meant N.rational self.new ≡ with_right (limit_of N.WIDTH) (sums_meant N.rational self.old) row (N.rational right) (N.rational multiplier) }
    {
        if self.negative.is_none() && is_negative(multiplier) {
            self.negative = Some(row);
        }
        self.right = joined(self.right, right, multiplier);
    }

    /// Takes a row with its multiplier.
    pub fn add_row(&mut self, row: u32, entries: &[Entry<N>], right: N, multiplier: N)
        requires rising { AllPairs (λ s t. s.column < t.column) entries.now }
        requires in_range { All (λ t. t.column < length self.old.columns) entries.now }
        ensures { TakesRow (limit_of N.WIDTH) (sums_meant N.rational self.old) (sums_meant N.rational self.new) row (terms_of N.rational entries.now) (N.rational right) (N.rational multiplier) }
    {
        for entry in entries {
            self.add_entry(entry.column, entry.value, multiplier);
        }
        self.end_row(row, right, multiplier);
    }

    /// The value of the multipliers of the rows as a dual answer, or why they are none: what
    /// [`check_dual`](crate::check_dual) answers, with 0 for each row that was left out.
    pub fn judge_dual(&self, goal: &[N]) -> Result<N, DualFault<N>>
        requires { length goal.now ≡ length self.now.columns }
        ensures { dual_result N.rational result ≡ dual_of_sums (sums_meant N.rational self.now) (map N.rational goal.now) }
    {
        if let Some(row) = self.negative_row() {
            return Err(DualFault::NegativeRow(row));
        }
        for column in 0..self.column_count() {
            let sum = self.column(column)?;
            if is_below(sum, goal[column as usize]) {
                return Err(DualFault::Column(column));
            }
        }
        let value = self.right()?;
        Ok(value)
    }

    /// Whether the multipliers of the rows are a Farkas answer, or why they are none: what
    /// [`check_farkas`](crate::check_farkas) answers, with 0 for each row that was left out.
    pub fn judge_farkas(&self) -> Result<(), FarkasFault<N>>
        ensures { farkas_result N.rational result ≡ farkas_of_sums (sums_meant N.rational self.now) }
    {
        if let Some(row) = self.negative_row() {
            return Err(FarkasFault::NegativeRow(row));
        }
        for column in 0..self.column_count() {
            let sum = self.column(column)?;
            if is_negative(sum) {
                return Err(FarkasFault::Column(column));
            }
        }
        let value = self.right()?;
        if is_negative(value) {
            Ok(())
        } else {
            Err(FarkasFault::NotBelowZero)
        }
    }
}
