//! The numbers of a row that are too long for words of 64 bits.

ghost use Rattle.std.specs.Prelude.{◌≡◌, ◌≢◌, ℕ, ◌<◌, ◌≤◌, ◌^◌, ◌↔◌, IsTrue, length, map, [], true, is_some, IfSome, IfOk};
ghost use Rattle.std.specs.Bool.{OnTrue, OnFalse};
ghost use Rattle.npp_frac.specs.Rational.{zero_ℚ, is_less, ◌/ℚ◌};
ghost use Rattle.npp_frac.specs.Fits.{FitsBelow, limit_of, fits_div};
ghost use Rattle.npp_lp.specs.Programs.{at};
ghost use Rattle.npp_simplex.specs.CommonForm.{word_limit as word_limit_of, over, IsCommonForm};

use crate::forms::{Sizes, gather_words, word_limit, write_fractions};
use crate::long_forms::{
    LongSizes, cut_words, long_quotient, shorten_long_words, write_long_fractions,
};
use crate::long_words::{lengthen, zero_long_words};
use crate::numbers::{quotient, zero};
use npp_frac::{Exact, Memory, is_positive, is_zero};
use std::alloc::Global;
use std::marker::Model;

/// The numbers of a row: whole numbers over one denominator where they fit a long word, of 128 bits, and fractions
/// elsewhere. Contracts see it as the list of its numbers.
#[derive(Drop)]
pub struct Long<N: Exact> {
    /// Whether its numbers are the long words over the denominator.
    pub is_whole: bool,
    /// What they are over.
    pub denominator: u128,
    /// No long word is longer.
    pub bound: u128,
    /// Its long words, or room for them. There is none where numbers of the width fit words of 64 bits.
    pub words: Vec<i128>,
    /// Its fractions, or room for them.
    pub fractions: Vec<N>,
}

impl<N: Exact> Model for Long<N> {
    ghost use Rattle.std.specs.Prelude.{List, length, map, ◌≡◌, true};
    ghost use Rattle.npp_frac.specs.Rational.{Rational};
    ghost use Rattle.npp_frac.specs.Fits.{limit_of};
    ghost use Rattle.npp_simplex.specs.CommonForm.{line_of, IsLine};

    ghost Value = { List Rational };

    ghost view = { λ a. line_of a.is_whole a.denominator a.words.items (map N.rational a.fractions.items) };

    ghost invariant = { λ a. a.is_whole ≡ true → IsLine (limit_of N.WIDTH) a.is_whole a.denominator a.bound a.words.items (length (map N.rational a.fractions.items)) };
}

impl<N: Exact> Long<N> {
    /// A row without numbers or room.
    pub fn empty(alloc: Global) -> Long<N>
        ensures { result ≡ [] }
    {
        Long {
            is_whole: false,
            denominator: 1,
            bound: 0,
            words: Vec::new(alloc),
            fractions: Vec::new(alloc),
        }
    }

    /// A row of these numbers, with room for long words where the width is theirs. They lie in the list that is handed in.
    pub fn over(words: Vec<i128>, fractions: Vec<N>) -> Result<Long<N>, Memory>
        ensures { IfOk result (λ long. long ≡ map N.rational fractions.items) }
    {
        let count = if N::WIDTH == 128 { fractions.len() } else { 0 };
        let words = zero_long_words(words, count)?;
        Ok(Long {
            is_whole: false,
            denominator: 1,
            bound: 0,
            words,
            fractions,
        })
    }

    /// Does nothing. Each number fits the width.
    pub fn keeps_limit(&self)
        ensures { (j : ℕ) → j < length self.now → FitsBelow (limit_of N.WIDTH) (at self.now j) }
    {
        // From here on it is known that the words fit.
        let _ = &self.words;
    }

    /// A number of the row.
    pub fn number(&self, j: usize) -> N
        requires { j < length self.now }
        ensures { N.rational result ≡ at self.now j }
    {
        let words = self.words.as_slice();
        let fractions = self.fractions.as_slice();
        if self.is_whole {
            long_quotient(words[j], self.denominator as i128)
        } else {
            fractions[j]
        }
    }

    /// Whether a number of the row is above 0.
    pub fn is_positive(&self, j: usize) -> bool
        requires { j < length self.now }
        ensures { result ≡ is_less zero_ℚ (at self.now j) }
    {
        let words = self.words.as_slice();
        let fractions = self.fractions.as_slice();
        if self.is_whole {
            words[j] > 0
        } else {
            is_positive(fractions[j])
        }
    }

    /// Whether a number of the row is 0.
    pub fn is_zero(&self, j: usize) -> bool
        requires { j < length self.now }
        ensures { IsTrue result ↔ (at self.now j ≡ zero_ℚ) }
    {
        let words = self.words.as_slice();
        let fractions = self.fractions.as_slice();
        if self.is_whole {
            words[j] == 0
        } else {
            is_zero(fractions[j])
        }
    }

    /// The quotient of two numbers of the row, where it fits.
    pub fn quotient(&self, j: usize, by: usize) -> Option<N>
        requires number { j < length self.now }
        requires by { by < length self.now }
        requires divisor { at self.now by ≢ zero_ℚ }
        ensures fits { is_some result ≡ fits_div (limit_of N.WIDTH) (at self.now j) (at self.now by) }
        ensures exact { IfSome result (λ q. N.rational q ≡ at self.now j /ℚ at self.now by) }
    {
        let words = self.words.as_slice();
        let fractions = self.fractions.as_slice();
        if self.is_whole {
            Some(long_quotient(words[j], words[by]))
        } else {
            quotient(fractions[j], fractions[by])
        }
    }

    /// Takes a common factor out of the long words, and finds how long they are.
    pub fn shorten(&mut self)
        ensures { self.new ≡ self.old }
    {
        if !self.is_whole {
            return;
        }
        let sizes = shorten_long_words(self.words.as_mut_slice(), self.denominator);
        self.denominator = sizes.denominator;
        self.bound = sizes.bound;
    }

    /// Takes over the numbers of another row.
    pub fn copy_from(&mut self, other: &Long<N>)
        requires { length self.old ≡ length other.now }
        ensures { self.new ≡ other.now }
    {
        let words = other.words.as_slice();
        let fractions = other.fractions.as_slice();
        let sizes = LongSizes {
            bound: other.bound,
            denominator: other.denominator,
        };
        if !other.is_whole {
            self.is_whole = false;
            self.fractions.as_mut_slice().copy_from_slice(fractions);
        } else if self.words.len() == words.len() {
            self.is_whole = true;
            self.denominator = sizes.denominator;
            self.bound = sizes.bound;
            self.words.as_mut_slice().copy_from_slice(words);
        } else {
            self.is_whole = false;
            write_long_fractions(words, sizes, self.fractions.as_mut_slice());
        }
    }

    /// Writes the numbers as words of 64 bits over a denominator, where they fit.
    pub fn give_words(&self, words: &mut [i64]) -> Option<Sizes>
        requires { length words.old ≡ length self.now }
        ensures numbers { IfSome result (λ s. over s.denominator words.new ≡ self.now) }
        ensures form { IfSome result (λ s. IsCommonForm (word_limit_of N.WIDTH) s.denominator s.bound words.new) }
    {
        let limit = word_limit::<N>();
        let numbers = self.words.as_slice();
        let fractions = self.fractions.as_slice();
        if self.is_whole {
            let sizes = LongSizes {
                bound: self.bound,
                denominator: self.denominator,
            };
            cut_words(numbers, sizes, limit, words)
        } else {
            gather_words(fractions, limit, words)
        }
    }

    /// Takes over words of 64 bits over a denominator: as long words where there is room for them, else as fractions.
    pub fn take_words(&mut self, words: &[i64], sizes: Sizes)
        requires form { IsCommonForm (word_limit_of N.WIDTH) sizes.denominator sizes.bound words.now }
        requires room { length words.now ≡ length self.old }
        ensures { self.new ≡ over sizes.denominator words.now }
    {
        if self.words.len() == words.len() {
            lengthen(words, self.words.as_mut_slice());
            self.is_whole = true;
            self.denominator = sizes.denominator as u128;
            self.bound = sizes.bound as u128;
        } else {
            self.is_whole = false;
            write_fractions(words, sizes, self.fractions.as_mut_slice());
        }
    }

    /// Sets a number to 0.
    pub fn clear_at(&mut self, j: usize)
        requires { j < length self.old }
        ensures length { length self.new ≡ length self.old }
        ensures here { at self.new j ≡ zero_ℚ }
        ensures others { (k : ℕ) → k ≢ j → at self.new k ≡ at self.old k }
    {
        if self.is_whole {
            self.words[j] = 0;
        } else {
            self.fractions[j] = zero();
        }
    }
}
