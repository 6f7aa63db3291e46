//! What a pivot does with the numbers of a row that are too long for words of 64 bits.

ghost use Rattle.std.specs.Prelude.{◌≡◌, ◌≢◌, ℕ, ◌<◌, ◌^◌, length, IfNone, true};
ghost use Rattle.std.specs.Bool.{OnTrue, OnFalse};
ghost use Rattle.npp_frac.specs.Rational.{zero_ℚ, ◌-ℚ◌, ◌*ℚ◌, ◌/ℚ◌};
ghost use Rattle.npp_frac.specs.Fits.{limit_of, fits_div};
ghost use Rattle.npp_lp.specs.Programs.{at};
ghost use Rattle.npp_lp.specs.Verdict.{first_below};
ghost use Rattle.npp_simplex.specs.CommonForm.{word_limit as word_limit_of, line_of, IsCommonForm};
ghost use Rattle.npp_simplex.specs.Places.{column_unless, fits_less_product};
ghost use Rattle.npp_simplex.specs.Steps.{nonzero_columns as nonzero_columns_of};

use crate::forms::Sizes;
use crate::line::Line;
use crate::long::Long;
use crate::long_forms::{
    LongSizes, long_limit, long_multiples_for, long_sizes_after, replace_by_long, replace_by_words,
    spread_long,
};
use crate::row::{divide, eliminate};
use npp_frac::Exact;

impl<N: Exact> Long<N> {
    /// Takes over the words of a row, unless its numbers are here.
    pub fn take_from(&mut self, is_whole: bool, words: &[i64], sizes: Sizes)
        requires form { is_whole ≡ true → IsCommonForm (word_limit_of N.WIDTH) sizes.denominator sizes.bound words.now }
        requires room { length words.now ≡ length self.old }
        ensures { self.new ≡ line_of is_whole sizes.denominator words.now self.old }
    {
        if is_whole {
            self.take_words(words, sizes);
        }
    }

    /// Divides the row by its number in a column, up to the first quotient that does not fit, whose column it answers.
    pub fn divide(&mut self, column: usize) -> Option<u32>
        requires short { length self.old < 2 ^ 32 }
        requires column { column < length self.old }
        requires divisor { at self.old column ≢ zero_ℚ }
        ensures length { length self.new ≡ length self.old }
        ensures stop { result ≡ first_below (length self.old) (λ j. column_unless (fits_div (limit_of N.WIDTH) (at self.old j) (at self.old column)) j) }
        ensures divided { IfNone result ((j : ℕ) → j < length self.old → at self.new j ≡ at self.old j /ℚ at self.old column) }
    {
        if self.divide_words(column) {
            return None;
        }
        self.divide_fractions(column)
    }

    /// The same for long words over a denominator and a number above 0. Else nothing is done.
    pub fn divide_words(&mut self, column: usize) -> bool
        requires column { column < length self.old }
        requires divisor { at self.old column ≢ zero_ℚ }
        ensures length { length self.new ≡ length self.old }
        ensures fits { OnTrue result ((j : ℕ) → true ≡ fits_div (limit_of N.WIDTH) (at self.old j) (at self.old column)) }
        ensures divided { OnTrue result ((j : ℕ) → at self.new j ≡ at self.old j /ℚ at self.old column) }
        ensures unchanged { OnFalse result (self.new ≡ self.old) }
    {
        if !self.is_whole {
            return false;
        }
        let divisor = self.words.as_slice()[column];
        if divisor < 0 {
            return false;
        }
        self.denominator = divisor.unsigned_abs();
        true
    }

    /// The same number by number.
    pub fn divide_fractions(&mut self, column: usize) -> Option<u32>
        requires short { length self.old < 2 ^ 32 }
        requires column { column < length self.old }
        requires divisor { at self.old column ≢ zero_ℚ }
        ensures length { length self.new ≡ length self.old }
        ensures stop { result ≡ first_below (length self.old) (λ j. column_unless (fits_div (limit_of N.WIDTH) (at self.old j) (at self.old column)) j) }
        ensures divided { IfNone result ((j : ℕ) → j < length self.old → at self.new j ≡ at self.old j /ℚ at self.old column) }
    {
        let is_whole = self.is_whole;
        let sizes = LongSizes {
            bound: self.bound,
            denominator: self.denominator,
        };
        self.is_whole = false;
        let words = self.words.as_slice();
        let fractions = self.fractions.as_mut_slice();
        spread_long(is_whole, sizes, words, fractions);
        let divisor = fractions[column];
        divide(fractions, divisor)
    }

    /// Takes the multiple of another row from the row that makes its number in a column 0, up to the first number that does
    /// not fit, whose column it answers. The other row is 1 in the column, and `columns` are those in which it is not 0.
    pub fn reduce(&mut self, column: usize, other: &Line<N>, columns: &[u32]) -> Option<u32>
        requires short { length self.old < 2 ^ 32 }
        requires column { column < length self.old }
        requires other { length other.now ≡ length self.old }
        requires columns { columns.now ≡ nonzero_columns_of (at other.now) (length self.old) }
        ensures length { length self.new ≡ length self.old }
        ensures stop { result ≡ first_below (length self.old) (λ j. column_unless (fits_less_product (limit_of N.WIDTH) (at self.old j) (at self.old column) (at other.now j)) j) }
        ensures reduced { IfNone result ((j : ℕ) → j < length self.old → at self.new j ≡ at self.old j -ℚ at self.old column *ℚ at other.now j) }
    {
        if self.reduce_words(column, other, columns) {
            return None;
        }
        self.shorten();
        if self.reduce_words(column, other, columns) {
            return None;
        }
        self.reduce_fractions(column, other, columns)
    }

    /// The same over one denominator, where both rows are so and the sizes show that every number fits. Else nothing is done.
    pub fn reduce_words(&mut self, column: usize, other: &Line<N>, columns: &[u32]) -> bool
        requires column { column < length self.old }
        requires other { length other.now ≡ length self.old }
        requires columns { columns.now ≡ nonzero_columns_of (at other.now) (length self.old) }
        ensures length { length self.new ≡ length self.old }
        ensures fits { OnTrue result ((j : ℕ) → true ≡ fits_less_product (limit_of N.WIDTH) (at self.old j) (at self.old column) (at other.now j)) }
        ensures reduced { OnTrue result ((j : ℕ) → at self.new j ≡ at self.old j -ℚ at self.old column *ℚ at other.now j) }
        ensures unchanged { OnFalse result (self.new ≡ self.old) }
    {
        if other.is_whole {
            self.reduce_by_words(column, other, columns)
        } else {
            self.reduce_by_long(column, &other.long, columns)
        }
    }

    /// The same where the other row is one of words of 64 bits.
    pub fn reduce_by_words(&mut self, column: usize, other: &Line<N>, columns: &[u32]) -> bool
        requires column { column < length self.old }
        requires other { length other.now ≡ length self.old }
        requires columns { columns.now ≡ nonzero_columns_of (at other.now) (length self.old) }
        ensures length { length self.new ≡ length self.old }
        ensures fits { OnTrue result ((j : ℕ) → true ≡ fits_less_product (limit_of N.WIDTH) (at self.old j) (at self.old column) (at other.now j)) }
        ensures reduced { OnTrue result ((j : ℕ) → at self.new j ≡ at self.old j -ℚ at self.old column *ℚ at other.now j) }
        ensures unchanged { OnFalse result (self.new ≡ self.old) }
    {
        if !self.is_whole {
            return false;
        }
        if !other.is_whole {
            return false;
        }
        let number = self.words.as_slice()[column];
        let multiples = long_multiples_for(number, other.denominator as u128);
        let own = LongSizes {
            bound: self.bound,
            denominator: self.denominator,
        };
        let limit = long_limit::<N>();
        let Some(sizes) = long_sizes_after(own, multiples, other.bound as u128, limit) else {
            return false;
        };
        let others = other.words.as_slice();
        replace_by_words(self.words.as_mut_slice(), multiples, others, columns);
        self.bound = sizes.bound;
        self.denominator = sizes.denominator;
        true
    }

    /// The same where the other row is one of long words.
    pub fn reduce_by_long(&mut self, column: usize, other: &Long<N>, columns: &[u32]) -> bool
        requires column { column < length self.old }
        requires other { length other.now ≡ length self.old }
        requires columns { columns.now ≡ nonzero_columns_of (at other.now) (length self.old) }
        ensures length { length self.new ≡ length self.old }
        ensures fits { OnTrue result ((j : ℕ) → true ≡ fits_less_product (limit_of N.WIDTH) (at self.old j) (at self.old column) (at other.now j)) }
        ensures reduced { OnTrue result ((j : ℕ) → at self.new j ≡ at self.old j -ℚ at self.old column *ℚ at other.now j) }
        ensures unchanged { OnFalse result (self.new ≡ self.old) }
    {
        if !self.is_whole {
            return false;
        }
        if !other.is_whole {
            return false;
        }
        let number = self.words.as_slice()[column];
        let multiples = long_multiples_for(number, other.denominator);
        let own = LongSizes {
            bound: self.bound,
            denominator: self.denominator,
        };
        let limit = long_limit::<N>();
        let Some(sizes) = long_sizes_after(own, multiples, other.bound, limit) else {
            return false;
        };
        let others = other.words.as_slice();
        replace_by_long(self.words.as_mut_slice(), multiples, others, columns);
        self.bound = sizes.bound;
        self.denominator = sizes.denominator;
        true
    }

    /// The same number by number.
    pub fn reduce_fractions(
        &mut self,
        column: usize,
        other: &Line<N>,
        columns: &[u32],
    ) -> Option<u32>
        requires short { length self.old < 2 ^ 32 }
        requires column { column < length self.old }
        requires other { length other.now ≡ length self.old }
        requires columns { columns.now ≡ nonzero_columns_of (at other.now) (length self.old) }
        ensures length { length self.new ≡ length self.old }
        ensures stop { result ≡ first_below (length self.old) (λ j. column_unless (fits_less_product (limit_of N.WIDTH) (at self.old j) (at self.old column) (at other.now j)) j) }
        ensures reduced { IfNone result ((j : ℕ) → j < length self.old → at self.new j ≡ at self.old j -ℚ at self.old column *ℚ at other.now j) }
    {
        let is_whole = self.is_whole;
        let sizes = LongSizes {
            bound: self.bound,
            denominator: self.denominator,
        };
        self.is_whole = false;
        let words = self.words.as_slice();
        let fractions = self.fractions.as_mut_slice();
        spread_long(is_whole, sizes, words, fractions);
        let factor = fractions[column];
        eliminate(fractions, factor, other, columns)
    }
}
