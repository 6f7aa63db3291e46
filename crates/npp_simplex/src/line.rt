//! A row of the tableau.

ghost use Rattle.std.specs.Prelude.{◌≡◌, ◌≢◌, ℕ, ◌<◌, ◌≤◌, ◌^◌, ◌↔◌, IsTrue, length, take, map, is_some, IfSome, IfOk};
ghost use Rattle.npp_frac.specs.Rational.{zero_ℚ, is_less, ◌/ℚ◌};
ghost use Rattle.npp_frac.specs.Fits.{limit_of, fits_div};
ghost use Rattle.npp_lp.specs.Programs.{at};
ghost use Rattle.npp_simplex.specs.RowOrder.{AreWordsOf};
ghost use Rattle.npp_simplex.specs.Steps.{nonzero_columns as nonzero_columns_of};

use crate::forms::{shorten_words, whole_quotient};
use crate::long::Long;
use crate::words::{clear_words, zero_words};
use npp_frac::{Exact, Memory};
use std::alloc::Global;
use std::marker::Model;

/// A row of the tableau: whole numbers over one denominator where they fit words of 64 bits, and what stands for longer ones
/// elsewhere. Contracts see it as the list of its numbers.
#[derive(Drop)]
pub struct Line<N: Exact> {
    /// Whether its numbers are the words over the denominator.
    pub is_whole: bool,
    /// What they are over.
    pub denominator: u64,
    /// No word is longer.
    pub bound: u64,
    /// Its words, or room for them.
    pub words: Vec<i64>,
    /// Its numbers where they are longer, or room for them.
    pub long: Long<N>,
}

impl<N: Exact> Model for Line<N> {
    ghost use Rattle.std.specs.Prelude.{List, length};
    ghost use Rattle.npp_frac.specs.Rational.{Rational};
    ghost use Rattle.npp_simplex.specs.CommonForm.{word_limit, line_of, IsLine};

    ghost Value = { List Rational };

    ghost view = { λ a. line_of a.is_whole a.denominator a.words.items a.long };

    ghost invariant = { λ a. IsLine (word_limit N.WIDTH) a.is_whole a.denominator a.bound a.words.items (length a.long) };
}

impl<N: Exact> Line<N> {
    /// A row without numbers or room.
    pub fn empty(alloc: Global) -> Line<N> {
        Line {
            is_whole: false,
            denominator: 1,
            bound: 0,
            words: Vec::new(alloc),
            long: Long::empty(alloc),
        }
    }

    /// A row of these numbers. Its words and long words lie in the lists that are handed in.
    pub fn over(
        words: Vec<i64>,
        long_words: Vec<i128>,
        fractions: Vec<N>,
    ) -> Result<Line<N>, Memory>
        ensures { IfOk result (λ line. line ≡ map N.rational fractions.items) }
    {
        let words = zero_words(words, fractions.len())?;
        let long = Long::over(long_words, fractions)?;
        let mut line = Line {
            is_whole: false,
            denominator: 1,
            bound: 0,
            words,
            long,
        };
        line.gather();
        Ok(line)
    }

    /// A number of the row.
    pub fn number(&self, j: usize) -> N
        requires { j < length self.now }
        ensures { N.rational result ≡ at self.now j }
    {
        let words = self.words.as_slice();
        if self.is_whole {
            whole_quotient(words[j], self.denominator as i64)
        } else {
            self.long.number(j)
        }
    }

    /// Its words, where they are its numbers over one denominator.
    pub fn whole_numbers(&self) -> Option<&[i64]>
        ensures { IfSome result (λ words. AreWordsOf (limit_of N.WIDTH) words.now self.now) }
    {
        if self.is_whole {
            Some(self.words.as_slice())
        } else {
            None
        }
    }

    /// Whether a number of the row is above 0.
    pub fn is_positive(&self, j: usize) -> bool
        requires { j < length self.now }
        ensures { result ≡ is_less zero_ℚ (at self.now j) }
    {
        let words = self.words.as_slice();
        if self.is_whole {
            words[j] > 0
        } else {
            self.long.is_positive(j)
        }
    }

    /// Whether a number of the row is 0.
    pub fn is_zero(&self, j: usize) -> bool
        requires { j < length self.now }
        ensures { IsTrue result ↔ (at self.now j ≡ zero_ℚ) }
    {
        let words = self.words.as_slice();
        if self.is_whole {
            words[j] == 0
        } else {
            self.long.is_zero(j)
        }
    }

    /// The first of some columns at which the row is not 0, or their end.
    pub fn next_nonzero(&self, from: usize, end: usize) -> usize
        requires order { from ≤ end }
        requires end { end ≤ length self.now }
        ensures from { from ≤ result }
        ensures end { result ≤ end }
        ensures zeros { (j : ℕ) → from ≤ j → j < result → at self.now j ≡ zero_ℚ }
    {
        for j in from..end {
            if !self.is_zero(j) {
                return j;
            }
        }
        end
    }

    /// The quotient of two numbers of the row, where it fits.
    pub fn quotient(&self, j: usize, by: usize) -> Option<N>
        requires number { j < length self.now }
        requires by { by < length self.now }
        requires divisor { at self.now by ≢ zero_ℚ }
        ensures fits { is_some result ≡ fits_div (limit_of N.WIDTH) (at self.now j) (at self.now by) }
        ensures exact { IfSome result (λ q. N.rational q ≡ at self.now j /ℚ at self.now by) }
    {
        let words = self.words.as_slice();
        if self.is_whole {
            Some(whole_quotient(words[j], words[by]))
        } else {
            self.long.quotient(j, by)
        }
    }

    /// Writes the columns at which the row is not 0 into a list, and tells how many they are.
    pub fn nonzero_columns(&self, columns: &mut [u32]) -> usize
        requires short { length self.now < 2 ^ 32 }
        requires room { length columns.old ≡ length self.now }
        ensures within { result ≤ length self.now }
        ensures columns { take result columns.new ≡ nonzero_columns_of (at self.now) (length self.now) }
    {
        let mut count = 0;
        for j in 0..columns.len() {
            if !self.is_zero(j) {
                columns[count] = j as u32;
                count += 1;
            }
        }
        count
    }

    /// Takes a common factor out of the numbers, and brings them into words where they fit.
    pub fn shorten(&mut self)
        ensures { self.new ≡ self.old }
    {
        if self.is_whole {
            self.shorten_words();
        } else {
            self.long.shorten();
            self.gather();
        }
    }

    /// Takes a common factor out of the words, and finds how long they are.
    pub fn shorten_words(&mut self)
        ensures { self.new ≡ self.old }
    {
        if !self.is_whole {
            return;
        }
        let sizes = shorten_words(self.words.as_mut_slice(), self.denominator);
        self.denominator = sizes.denominator;
        self.bound = sizes.bound;
    }

    /// Brings longer numbers into words over one denominator, where they fit.
    pub fn gather(&mut self)
        ensures { self.new ≡ self.old }
    {
        if self.is_whole {
            return;
        }
        match self.long.give_words(self.words.as_mut_slice()) {
            Some(sizes) => {
                self.is_whole = true;
                self.denominator = sizes.denominator;
                self.bound = sizes.bound;
            }
            None => {}
        }
    }

    /// Takes over the numbers of another row.
    pub fn copy_from(&mut self, other: &Line<N>)
        requires { length self.old ≡ length other.now }
        ensures { self.new ≡ other.now }
    {
        self.is_whole = other.is_whole;
        self.denominator = other.denominator;
        self.bound = other.bound;
        let words = other.words.as_slice();
        if other.is_whole {
            self.words.as_mut_slice().copy_from_slice(words);
        } else {
            self.long.copy_from(&other.long);
        }
    }

    /// Sets a number to 0.
    pub fn clear_at(&mut self, j: usize)
        requires { j < length self.old }
        ensures length { length self.new ≡ length self.old }
        ensures here { at self.new j ≡ zero_ℚ }
        ensures others { (k : ℕ) → k ≢ j → at self.new k ≡ at self.old k }
    {
        if self.is_whole {
            self.words[j] = 0;
        } else {
            self.long.clear_at(j);
        }
    }

    /// Sets each number to 0.
    pub fn clear(&mut self)
        ensures length { length self.new ≡ length self.old }
        ensures zeros { (j : ℕ) → j < length self.old → at self.new j ≡ zero_ℚ }
    {
        clear_words(self.words.as_mut_slice());
        self.is_whole = true;
        self.denominator = 1;
        self.bound = 0;
    }
}
