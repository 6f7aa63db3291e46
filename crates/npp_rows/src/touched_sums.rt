//! Sums of rows over the columns in which they stand.

ghost use Rattle.std.specs.Prelude.{◌≡◌, ◌<◌, ◌^◌, length, map, slice_index, slice_index_or, All, Contains, IfOk, OnOk};
ghost use Rattle.std.specs.List.{AllPairs};
ghost use Rattle.npp_frac.specs.Fits.{limit_of};
ghost use Rattle.npp_lp.specs.Meaning.{terms_of, sum_result};
ghost use Rattle.npp_lp.specs.RunningSums.{column_of, AreEmpty, TakesRow};
ghost use Rattle.npp_rows.specs.Rounding.{HoldSums};
ghost use Rattle.npp_rows.specs.Spread.{in_column};

use crate::search::place_in;
use npp_frac::{Exact, Overflow};
use npp_lp::{Entry, RunningSums};
use npp_net::Memory;
use std::alloc::Global;
use std::marker::Model;

/// The sums of rows, each times its multiplier, over some of the columns of a program; the rows stand in no others.
///
/// They take the room of these columns. A row takes the time of its entries, and of a search among the columns for each that
/// does not stand in the column behind that of the entry before it. Contracts see these columns and the sums of all columns
/// of the program.
#[derive(Drop)]
pub(crate) struct TouchedSums<N: Exact> {
    count: u32,
    columns: Vec<u32>,
    sums: RunningSums<N>,
    entries: Vec<Entry<N>>,
}

impl<N: Exact> Model for TouchedSums<N> {
    ghost use Rattle.std.specs.Prelude.{length};
    ghost use Rattle.npp_lp.specs.RunningSums.{sums_meant};
    ghost use Rattle.npp_rows.specs.Spread.{Touched, AreTouched, spread};

    ghost Value = { Touched };

    ghost view = { λ s. record { columns = s.columns.items; all = spread s.count s.columns.items (sums_meant N.rational s.sums) } };

    ghost invariant = { λ s. AreTouched s.count s.columns.items (length s.sums.columns) };
}

impl<N: Exact> TouchedSums<N> {
    /// Sums over some of so many columns, with no row yet.
    pub(crate) fn new(alloc: Global, count: u32, columns: Vec<u32>) -> Result<Self, Memory>
        requires rising { AllPairs (λ i j. i < j) columns.items }
        requires inside { All (λ j. j < count) columns.items }
        ensures columns { IfOk result (λ s. s.columns ≡ columns.items) }
        ensures empty { IfOk result (λ s. AreEmpty count s.all) }
    {
        let sums = match RunningSums::new(alloc, columns.len() as u32) {
            Ok(sums) => sums,
            Err(_) => return Err(Memory),
        };
        Ok(TouchedSums {
            count,
            columns,
            sums,
            entries: Vec::new(alloc),
        })
    }

    /// Takes a row with its multiplier, which stands in no other columns than these.
    pub(crate) fn add_row(
        &mut self,
        row: u32,
        entries: &[Entry<N>],
        right: N,
        multiplier: N,
    ) -> Result<(), Memory>
        requires rising { AllPairs (λ s t. s.column < t.column) entries.now }
        requires stand { All (λ e. Contains self.old.columns e.column) entries.now }
        ensures row { OnOk result (TakesRow (limit_of N.WIDTH) self.old.all self.new.all row (terms_of N.rational entries.now) (N.rational right) (N.rational multiplier)) }
        ensures columns { self.new.columns ≡ self.old.columns }
    {
        place_entries(&self.columns, entries, &mut self.entries)?;
        self.sums.add_row(row, &self.entries, right, multiplier);
        Ok(())
    }

    /// The columns, by rising number: each other column sums to 0.
    pub(crate) fn columns(&self) -> &[u32]
        ensures columns { result.now ≡ self.now.columns }
        ensures hold { HoldSums (length self.now.all.columns) self.now.all result.now }
    {
        &self.columns
    }

    /// The sum of the column at a place among the columns, or its first operation that did not fit.
    pub(crate) fn sum_at(&self, place: usize) -> Result<N, Overflow<N>>
        requires { place < length self.now.columns }
        ensures { sum_result N.rational result ≡ column_of self.now.all (slice_index self.now.columns place) }
    {
        self.sums.column(place as u32)
    }

    /// The sum of the right sides, or its first operation that did not fit.
    pub(crate) fn right(&self) -> Result<N, Overflow<N>>
        ensures { sum_result N.rational result ≡ self.now.all.right }
    {
        self.sums.right()
    }
}

/// The entries of a row, each by the place of its column among some columns.
fn place_entries<N: Exact>(
    columns: &[u32],
    entries: &[Entry<N>],
    placed: &mut Vec<Entry<N>>,
) -> Result<(), Memory>
    requires few { length columns.now < 2 ^ 32 }
    requires rising { AllPairs (λ i j. i < j) columns.now }
    requires stand { All (λ e. Contains columns.now e.column) entries.now }
    ensures inside { OnOk result (All (λ e. e.column < length columns.now) placed.new.items) }
    ensures same { OnOk result (terms_of N.rational entries.now ≡ map (in_column columns.now) (terms_of N.rational placed.new.items)) }
{
    placed.clear();
    let mut next = 0;
    for entry in entries {
        let place = place_near(columns, next, entry.column);
        placed.push(Entry {
            column: place as u32,
            value: entry.value,
        })?;
        next = place + 1;
    }
    Ok(())
}

/// The place of a column among some columns, one of which it is. It is sought where it is not at this place.
fn place_near(columns: &[u32], place: usize, column: u32) -> usize
    requires rising { AllPairs (λ i j. i < j) columns.now }
    requires here { Contains columns.now column }
    ensures inside { result < length columns.now }
    ensures at { slice_index_or columns.now result column ≡ column }
{
    if place < columns.len() && columns[place] == column {
        place
    } else {
        place_in(columns, column).unwrap()
    }
}
