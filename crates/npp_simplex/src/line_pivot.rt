//! What a pivot does with a row of the tableau.

ghost use Rattle.std.specs.Prelude.{◌≡◌, ◌≢◌, ℕ, ◌<◌, ◌^◌, length, IfNone, true};
ghost use Rattle.std.specs.Bool.{OnTrue, OnFalse};
ghost use Rattle.npp_frac.specs.Rational.{zero_ℚ, ◌-ℚ◌, ◌*ℚ◌, ◌/ℚ◌};
ghost use Rattle.npp_frac.specs.Fits.{limit_of, fits_div};
ghost use Rattle.npp_lp.specs.Programs.{at};
ghost use Rattle.npp_lp.specs.Verdict.{first_below};
ghost use Rattle.npp_simplex.specs.Places.{column_unless, fits_less_product};
ghost use Rattle.npp_simplex.specs.Steps.{nonzero_columns as nonzero_columns_of};

use crate::forms::{Sizes, multiples_for, replace, sizes_after, turn_signs, word_limit};
use crate::line::Line;
use npp_frac::Exact;

impl<N: Exact> Line<N> {
    /// Divides the row by its number in a column, up to the first quotient that does not fit, whose column it answers. Then a
    /// common factor of its words goes, whether or not the denominator of before had it too.
    pub fn divide(&mut self, column: usize) -> Option<u32>
        requires short { length self.old < 2 ^ 32 }
        requires column { column < length self.old }
        requires divisor { at self.old column ≢ zero_ℚ }
        ensures length { length self.new ≡ length self.old }
        ensures stop { result ≡ first_below (length self.old) (λ j. column_unless (fits_div (limit_of N.WIDTH) (at self.old j) (at self.old column)) j) }
        ensures divided { IfNone result ((j : ℕ) → j < length self.old → at self.new j ≡ at self.old j /ℚ at self.old column) }
    {
        let stop = self.divide_by(column);
        self.shorten();
        stop
    }

    /// The same, with the factor left in.
    pub fn divide_by(&mut self, column: usize) -> Option<u32>
        requires short { length self.old < 2 ^ 32 }
        requires column { column < length self.old }
        requires divisor { at self.old column ≢ zero_ℚ }
        ensures length { length self.new ≡ length self.old }
        ensures stop { result ≡ first_below (length self.old) (λ j. column_unless (fits_div (limit_of N.WIDTH) (at self.old j) (at self.old column)) j) }
        ensures divided { IfNone result ((j : ℕ) → j < length self.old → at self.new j ≡ at self.old j /ℚ at self.old column) }
    {
        self.shorten();
        if self.is_whole {
            let words = self.words.as_mut_slice();
            let divisor = words[column];
            turn_signs(words, divisor);
            self.denominator = divisor.unsigned_abs();
            return None;
        }
        let stop = self.long.divide(column);
        self.gather();
        stop
    }

    /// Takes the multiple of another row from the row that makes its number in a column 0, up to the first number that does
    /// not fit, whose column it answers. The other row is 1 in the column, and `columns` are those in which it is not 0.
    pub fn reduce(&mut self, column: usize, other: &Line<N>, columns: &[u32]) -> Option<u32>
        requires short { length self.old < 2 ^ 32 }
        requires column { column < length self.old }
        requires other { length other.now ≡ length self.old }
        requires columns { columns.now ≡ nonzero_columns_of (at other.now) (length self.old) }
        ensures length { length self.new ≡ length self.old }
        ensures stop { result ≡ first_below (length self.old) (λ j. column_unless (fits_less_product (limit_of N.WIDTH) (at self.old j) (at self.old column) (at other.now j)) j) }
        ensures reduced { IfNone result ((j : ℕ) → j < length self.old → at self.new j ≡ at self.old j -ℚ at self.old column *ℚ at other.now j) }
    {
        // From here on it is known that the words fit.
        self.long.keeps_limit();
        if self.is_zero(column) {
            return None;
        }
        if self.reduce_words(column, other, columns) {
            return None;
        }
        self.shorten_words();
        if self.reduce_words(column, other, columns) {
            return None;
        }
        self.reduce_long(column, other, columns)
    }

    /// The same over one denominator, where both rows are so and the sizes show that every number fits. Else nothing is done.
    pub fn reduce_words(&mut self, column: usize, other: &Line<N>, columns: &[u32]) -> bool
        requires column { column < length self.old }
        requires other { length other.now ≡ length self.old }
        requires columns { columns.now ≡ nonzero_columns_of (at other.now) (length self.old) }
        ensures length { length self.new ≡ length self.old }
        ensures fits { OnTrue result ((j : ℕ) → true ≡ fits_less_product (limit_of N.WIDTH) (at self.old j) (at self.old column) (at other.now j)) }
        ensures reduced { OnTrue result ((j : ℕ) → at self.new j ≡ at self.old j -ℚ at self.old column *ℚ at other.now j) }
        ensures unchanged { OnFalse result (self.new ≡ self.old) }
    {
        if !self.is_whole {
            return false;
        }
        if !other.is_whole {
            return false;
        }
        let number = self.words.as_slice()[column];
        let multiples = multiples_for(number, other.denominator);
        let own = Sizes {
            bound: self.bound,
            denominator: self.denominator,
        };
        let Some(sizes) = sizes_after(own, multiples, other.bound, word_limit::<N>()) else {
            return false;
        };
        let others = other.words.as_slice();
        replace(self.words.as_mut_slice(), multiples, others, columns);
        self.bound = sizes.bound;
        self.denominator = sizes.denominator;
        true
    }

    /// The same in longer numbers.
    pub fn reduce_long(&mut self, column: usize, other: &Line<N>, columns: &[u32]) -> Option<u32>
        requires short { length self.old < 2 ^ 32 }
        requires column { column < length self.old }
        requires other { length other.now ≡ length self.old }
        requires columns { columns.now ≡ nonzero_columns_of (at other.now) (length self.old) }
        ensures length { length self.new ≡ length self.old }
        ensures stop { result ≡ first_below (length self.old) (λ j. column_unless (fits_less_product (limit_of N.WIDTH) (at self.old j) (at self.old column) (at other.now j)) j) }
        ensures reduced { IfNone result ((j : ℕ) → j < length self.old → at self.new j ≡ at self.old j -ℚ at self.old column *ℚ at other.now j) }
    {
        let is_whole = self.is_whole;
        let sizes = Sizes {
            bound: self.bound,
            denominator: self.denominator,
        };
        self.is_whole = false;
        self.long.take_from(is_whole, self.words.as_slice(), sizes);
        let stop = self.long.reduce(column, other, columns);
        self.gather();
        stop
    }
}
