//! Rows of whole numbers, compared in pairs for the ratio test: products take the place of quotients.

ghost use Rattle.std.specs.Prelude.{◌≡◌, ℕ, ◌+◌, ◌-◌, ◌<◌, ◌≤◌, length, ◌∷◌, pos, ◌<ℤ◌, ◌*ℤ◌, true, Some, Ok, IfSome, slice_index};
ghost use Rattle.std.specs.List.{range_with_len};
ghost use Rattle.npp_frac.specs.Rational.{whole, is_less, ◌/ℚ◌};
ghost use Rattle.npp_frac.specs.Fits.{limit_of, fits_div};
ghost use Rattle.npp_lp.specs.Programs.{at};
ghost use Rattle.npp_simplex.specs.CommonForm.{number_in};
ghost use Rattle.npp_simplex.specs.Tableau.{cell, height, width};
ghost use Rattle.npp_simplex.specs.Ratio.{compared as compared_of, keys};
ghost use Rattle.npp_simplex.specs.RowOrder.{comes_before as comes_before_of, divided};
ghost use Rattle.npp_simplex.specs.Places.{quotient_fits, remaining};
ghost use Rattle.npp_simplex.specs.Meaning.{IsCandidate, AreCandidates};

use crate::line::Line;
use crate::shape::Shape;
use crate::stage::{EnteringColumn, Stage};
use crate::tableau::Tableau;
use npp_frac::Exact;

/// The product of two words.
pub fn product(number: i64, factor: i64) -> i128
    ensures { result ≡ number *ℤ factor }
{
    number as i128 * factor as i128
}

/// Whether a quotient of two words is below another.
pub fn is_lower(number: i64, divisor: i64, other: i64, by: i64) -> bool
    requires divisor { pos 0 <ℤ divisor }
    requires by { pos 0 <ℤ by }
    ensures { result ≡ is_less (whole number /ℚ whole divisor) (whole other /ℚ whole by) }
{
    if number == 0 && other == 0 {
        return false;
    }
    product(number, by) < product(other, divisor)
}

/// Whether the four words of a row from a column on are 0. They are tested at once.
#[inline(always)]
fn four_are_zero(words: &[i64], from: usize) -> bool
    requires { from + 4 ≤ length words.now }
    ensures { result ≡ true → (j : ℕ) → from ≤ j → j < from + 4 → number_in words.now j ≡ pos 0 }
{
    (words[from] == 0) & (words[from + 1] == 0) & (words[from + 2] == 0) & (words[from + 3] == 0)
}

/// The first of some columns at which one of two rows of words is not 0, or their end.
#[inline(always)]
fn next_nonzero_of(words: &[i64], others: &[i64], from: usize, end: usize) -> usize
    requires order { from ≤ end }
    requires words { end ≤ length words.now }
    requires others { end ≤ length others.now }
    ensures from { from ≤ result }
    ensures end { result ≤ end }
    ensures words { (j : ℕ) → from ≤ j → j < result → number_in words.now j ≡ pos 0 }
    ensures others { (j : ℕ) → from ≤ j → j < result → number_in others.now j ≡ pos 0 }
{
    let mut next = from;
    while 4 <= end - next && four_are_zero(words, next) && four_are_zero(others, next) {
        next += 4;
    }
    for j in next..end {
        if words[j] != 0 || others[j] != 0 {
            return j;
        }
    }
    end
}

/// Whether the words of a row over a divisor come before those of another row, from a column on to an end. Columns in which both
/// are 0 are passed over.
pub fn words_before(
    words: &[i64],
    divisor: i64,
    others: &[i64],
    by: i64,
    from: usize,
    end: usize,
) -> bool
    requires divisor { pos 0 <ℤ divisor }
    requires by { pos 0 <ℤ by }
    requires order { from ≤ end }
    requires words { end ≤ length words.now }
    requires others { end ≤ length others.now }
    ensures { result ≡ comes_before_of (divided words.now divisor) (divided others.now by) (range_with_len from (end - from)) }
{
    let mut next = from;
    while next < end {
        let k = next_nonzero_of(words, others, next, end);
        if k == end {
            return false;
        }
        if is_lower(words[k], divisor, others[k], by) {
            return true;
        }
        if is_lower(others[k], by, words[k], divisor) {
            return false;
        }
        next = k + 1;
    }
    false
}

/// The same at the right side, and then at the slacks in order.
pub fn keys_before(words: &[i64], divisor: i64, others: &[i64], by: i64, shape: Shape) -> bool
    requires divisor { pos 0 <ℤ divisor }
    requires by { pos 0 <ℤ by }
    requires words { length words.now ≡ shape.columns + shape.rows + 2 }
    requires others { length others.now ≡ shape.columns + shape.rows + 2 }
    ensures { result ≡ comes_before_of (divided words.now divisor) (divided others.now by) ((shape.columns + shape.rows + 1) ∷ range_with_len shape.columns shape.rows) }
{
    let right = shape.right();
    if is_lower(words[right], divisor, others[right], by) {
        return true;
    }
    if is_lower(others[right], by, words[right], divisor) {
        return false;
    }
    words_before(words, divisor, others, by, shape.columns, shape.extra())
}

impl<N: Exact> Line<N> {
    /// Whether the row comes before another in the ratio test, each divided by its number in a column. None where they are not
    /// both rows of words that are above 0 in the column.
    pub fn comes_before(&self, other: &Line<N>, column: usize, shape: Shape) -> Option<bool>
        requires length { length self.now ≡ shape.columns + shape.rows + 2 }
        requires other { length other.now ≡ shape.columns + shape.rows + 2 }
        requires column { column < shape.columns + shape.rows + 2 }
        ensures own_fits { IfSome result (λ b. (j : ℕ) → true ≡ fits_div (limit_of N.WIDTH) (at self.now j) (at self.now column)) }
        ensures other_fits { IfSome result (λ b. (j : ℕ) → true ≡ fits_div (limit_of N.WIDTH) (at other.now j) (at other.now column)) }
        ensures exact { IfSome result (λ b. b ≡ comes_before_of (λ j. at self.now j /ℚ at self.now column) (λ j. at other.now j /ℚ at other.now column) ((shape.columns + shape.rows + 1) ∷ range_with_len shape.columns shape.rows)) }
    {
        let words = self.whole_numbers()?;
        let others = other.whole_numbers()?;
        let divisor = words[column];
        let by = others[column];
        if divisor <= 0 || by <= 0 {
            return None;
        }
        Some(keys_before(words, divisor, others, by, shape))
    }
}

impl<N: Exact> Tableau<N> {
    /// Whether row `i` comes before row `k` in the ratio test, each divided by its number in a column. None where they are not
    /// both rows of words that are above 0 in the column.
    pub fn comes_before(&self, i: usize, k: usize, column: usize) -> Option<bool>
        requires row { i < height self.now }
        requires other { k < height self.now }
        requires column { column < width self.now }
        ensures own_fits { IfSome result (λ b. (j : ℕ) → true ≡ fits_div (limit_of N.WIDTH) (cell self.now i j) (cell self.now i column)) }
        ensures other_fits { IfSome result (λ b. (j : ℕ) → true ≡ fits_div (limit_of N.WIDTH) (cell self.now k j) (cell self.now k column)) }
        ensures exact { IfSome result (λ b. b ≡ comes_before_of (λ j. cell self.now i j /ℚ cell self.now i column) (λ j. cell self.now k j /ℚ cell self.now k column) (keys self.now)) }
    {
        let line = &self.lines[i];
        let other = &self.lines[k];
        line.comes_before(other, column, self.shape)
    }
}

/// Whether a candidate comes before another in the ratio test. None where not both are rows of words, or at phase one's first
/// pivot, which divides nothing.
pub fn candidate_before<N: Exact>(
    tableau: &Tableau<N>,
    entering: EnteringColumn,
    row: usize,
    other: usize,
) -> Option<bool>
    requires column { entering.column < width tableau.now }
    requires row { row < height tableau.now }
    requires other { other < height tableau.now }
    ensures own_fits { IfSome result (λ b. (k : ℕ) → quotient_fits (Some (limit_of N.WIDTH)) entering.stage tableau.now entering.column k row ≡ true) }
    ensures other_fits { IfSome result (λ b. (k : ℕ) → quotient_fits (Some (limit_of N.WIDTH)) entering.stage tableau.now entering.column k other ≡ true) }
    ensures exact { IfSome result (λ b. b ≡ comes_before_of (λ k. compared_of entering.stage tableau.now entering.column k row) (λ k. compared_of entering.stage tableau.now entering.column k other) (keys tableau.now)) }
{
    match entering.stage {
        Stage::Entry => None,
        Stage::PhaseOne => tableau.comes_before(row, other, entering.column),
        Stage::PhaseTwo => tableau.comes_before(row, other, entering.column),
    }
}

/// The candidate that leaves the basis, where all of them are rows of words that can be compared in pairs. Every quotient of
/// such a row fits.
pub fn leaving_by_pairs<N: Exact>(
    tableau: &Tableau<N>,
    entering: EnteringColumn,
    candidates: &[u32],
) -> Option<u32>
    requires column { entering.column < width tableau.now }
    requires some { 2 ≤ length candidates.now }
    requires rows { AreCandidates tableau.now entering.column candidates.now }
    ensures row { IfSome result (λ row. remaining (Some (limit_of N.WIDTH)) entering.stage tableau.now entering.column (keys tableau.now) candidates.now ≡ Ok row) }
    ensures candidate { IfSome result (λ row. IsCandidate tableau.now entering.column row) }
{
    let mut best = candidates[0];
    for s in 1..candidates.len() {
        let is_first = candidate_before(tableau, entering, candidates[s] as usize, best as usize)?;
        if is_first {
            best = candidates[s];
        }
    }
    Some(best)
}
