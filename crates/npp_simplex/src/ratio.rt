//! The ratio test: the lexicographic choice of the row that leaves the basis.

ghost use Rattle.std.specs.Prelude.{◌≡◌, ℕ, ◌<◌, ◌≤◌, length, take, Some, None, is_some, IfSome, IfNone, IfOk, IfErr, map, slice_index, All};
ghost use Rattle.std.specs.List.{range_with_len};
ghost use Rattle.npp_frac.specs.Rational.{zero_ℚ};
ghost use Rattle.npp_frac.specs.Fits.{limit_of};
ghost use Rattle.npp_lp.specs.Programs.{at};
ghost use Rattle.npp_simplex.specs.Tableau.{cell, width};
ghost use Rattle.npp_simplex.specs.Ratio.{compared as compared_of, keys, least_rows};
ghost use Rattle.npp_simplex.specs.Places.{quotient_fits, quotients_stop, remaining};
ghost use Rattle.npp_simplex.specs.Meaning.{IsCandidate, AreCandidates, IsLeastOf, rows_up_to};

use crate::numbers::lesser;
use crate::pairs::leaving_by_pairs;
use crate::place::{Place, Step};
use crate::stage::{EnteringColumn, Stage};
use crate::tableau::Tableau;
use npp_frac::{Exact, is_below};

/// What a row is compared by at a key, or None where it does not fit.
pub fn compared<N: Exact>(
    tableau: &Tableau<N>,
    entering: EnteringColumn,
    key: usize,
    row: usize,
) -> Option<N>
    requires column { entering.column < width tableau.now }
    requires key { key < width tableau.now }
    requires row { IsCandidate tableau.now entering.column row }
    ensures fits { is_some result ≡ quotient_fits (Some (limit_of N.WIDTH)) entering.stage tableau.now entering.column key row }
    ensures exact { IfSome result (λ q. N.rational q ≡ compared_of entering.stage tableau.now entering.column key row) }
{
    match entering.stage {
        Stage::Entry => Some(tableau.entry(row, key)),
        Stage::PhaseOne => tableau.quotient(row, key, entering.column),
        Stage::PhaseTwo => tableau.quotient(row, key, entering.column),
    }
}

/// Writes what each candidate is compared by at a key into a list, up to the first that does
/// not fit, whose place it answers.
pub fn compare_all<N: Exact>(
    tableau: &Tableau<N>,
    entering: EnteringColumn,
    key: usize,
    candidates: &[u32],
    numbers: &mut [N],
) -> Option<Place>
    requires column { entering.column < width tableau.now }
    requires key { key < width tableau.now }
    requires room { length candidates.now ≤ length numbers.old }
    requires rows { AreCandidates tableau.now entering.column candidates.now }
    ensures stop { result ≡ quotients_stop (Some (limit_of N.WIDTH)) entering.stage tableau.now entering.column key candidates.now }
    ensures numbers { IfNone result ((k : ℕ) → k < length candidates.now → at (map N.rational numbers.new) k ≡ compared_of entering.stage tableau.now entering.column key (slice_index candidates.now k)) }
{
    let _shape = tableau.shape();
    for s in 0..candidates.len() {
        match compared(tableau, entering, key, candidates[s] as usize) {
            Some(number) => numbers[s] = number,
            None => {
                return Some(Place {
                    step: Step::Ratio,
                    row: candidates[s],
                    column: key as u32,
                });
            }
        }
    }
    None
}

/// The least of some numbers.
pub fn least<N: Exact>(numbers: &[N]) -> N
    requires some { 0 < length numbers.now }
    ensures { IsLeastOf (map N.rational numbers.now) (N.rational result) }
{
    let mut best = numbers[0];
    for s in 1..numbers.len() {
        best = lesser(best, numbers[s]);
    }
    best
}

/// Moves those of the candidates whose number is not above the best to the front, and tells how many they are.
pub fn keep<N: Exact>(candidates: &mut [u32], numbers: &[N], best: N) -> usize
    requires lengths { length numbers.now ≡ length candidates.old }
    ensures within { result ≤ length candidates.old }
    ensures rows { take result candidates.new ≡ rows_up_to (N.rational best) (map N.rational numbers.now) candidates.old }
{
    let mut kept = 0;
    for s in 0..candidates.len() {
        if !is_below(best, numbers[s]) {
            candidates[kept] = candidates[s];
            kept += 1;
        }
    }
    kept
}

/// Moves those of the candidates that are least at a key to the front, and tells how many they are, or the place that does not fit.
pub fn refine_at<N: Exact>(
    tableau: &Tableau<N>,
    entering: EnteringColumn,
    key: usize,
    candidates: &mut [u32],
    numbers: &mut [N],
) -> Result<usize, Place>
    requires column { entering.column < width tableau.now }
    requires key { key < width tableau.now }
    requires some { 0 < length candidates.old }
    requires room { length candidates.old ≤ length numbers.old }
    requires rows { AreCandidates tableau.now entering.column candidates.old }
    ensures stop { IfErr result (λ place. quotients_stop (Some (limit_of N.WIDTH)) entering.stage tableau.now entering.column key candidates.old ≡ Some place) }
    ensures fits { IfOk result (λ left. quotients_stop (Some (limit_of N.WIDTH)) entering.stage tableau.now entering.column key candidates.old ≡ None) }
    ensures rows { IfOk result (λ left. take left candidates.new ≡ least_rows (compared_of entering.stage tableau.now entering.column key) candidates.old) }
    ensures some { IfOk result (λ left. 0 < left) }
    ensures within { IfOk result (λ left. left ≤ length candidates.old) }
{
    let numbers = &mut numbers[..candidates.len()];
    match compare_all(tableau, entering, key, candidates, numbers) {
        Some(place) => Err(place),
        None => {
            let best = least(numbers);
            Ok(keep(candidates, numbers, best))
        }
    }
}

/// The first of some columns at which some row is not 0, or their end.
pub fn next_key<N: Exact>(
    tableau: &Tableau<N>,
    from: usize,
    end: usize,
    candidates: &[u32],
) -> usize
    requires order { from ≤ end }
    requires end { end ≤ width tableau.now }
    requires rows { All (λ i. i < tableau.now.rows) candidates.now }
    ensures from { from ≤ result }
    ensures end { result ≤ end }
    ensures zeros { (k j : ℕ) → k < length candidates.now → from ≤ j → j < result → cell tableau.now (slice_index candidates.now k) j ≡ zero_ℚ }
{
    let mut next = end;
    for s in 0..candidates.len() {
        next = tableau.next_nonzero(candidates[s] as usize, from, next);
    }
    next
}

/// The candidate that remains when they are compared at one slack after the other, or the first place that does not fit.
/// At a column in which all of them are 0 they are not compared: all remain.
pub fn refine_by_slacks<N: Exact>(
    tableau: &Tableau<N>,
    entering: EnteringColumn,
    candidates: &mut [u32],
    numbers: &mut [N],
) -> Result<u32, Place>
    requires column { entering.column < width tableau.now }
    requires some { 0 < length candidates.old }
    requires room { length candidates.old ≤ length numbers.old }
    requires rows { AreCandidates tableau.now entering.column candidates.old }
    ensures row { result ≡ remaining (Some (limit_of N.WIDTH)) entering.stage tableau.now entering.column (range_with_len tableau.now.columns tableau.now.rows) candidates.old }
    ensures candidate { IfOk result (λ row. IsCandidate tableau.now entering.column row) }
{
    let shape = tableau.shape();
    let end = shape.extra();
    let mut left = candidates.len();
    let mut from = shape.columns;
    while 1 < left {
        let key = next_key(tableau, from, end, &candidates[..left]);
        if key == end {
            return Ok(candidates[0]);
        }
        match refine_at(tableau, entering, key, &mut candidates[..left], numbers) {
            Ok(fewer) => left = fewer,
            Err(place) => return Err(place),
        }
        from = key + 1;
    }
    Ok(candidates[0])
}

/// The candidate that remains when they are compared at one column after the other, or the first place that does not fit.
pub fn leaving_by_columns<N: Exact>(
    tableau: &Tableau<N>,
    entering: EnteringColumn,
    candidates: &mut [u32],
    numbers: &mut [N],
) -> Result<u32, Place>
    requires column { entering.column < width tableau.now }
    requires some { 2 ≤ length candidates.old }
    requires room { length candidates.old ≤ length numbers.old }
    requires rows { AreCandidates tableau.now entering.column candidates.old }
    ensures row { result ≡ remaining (Some (limit_of N.WIDTH)) entering.stage tableau.now entering.column (keys tableau.now) candidates.old }
    ensures candidate { IfOk result (λ row. IsCandidate tableau.now entering.column row) }
{
    let right = tableau.shape().right();
    match refine_at(tableau, entering, right, candidates, numbers) {
        Ok(left) => refine_by_slacks(tableau, entering, &mut candidates[..left], numbers),
        Err(place) => Err(place),
    }
}

/// The candidate that leaves the basis, or the first place of the ratio test that does not fit.
pub fn leaving<N: Exact>(
    tableau: &Tableau<N>,
    entering: EnteringColumn,
    candidates: &mut [u32],
    numbers: &mut [N],
) -> Result<u32, Place>
    requires column { entering.column < width tableau.now }
    requires some { 0 < length candidates.old }
    requires room { length candidates.old ≤ length numbers.old }
    requires rows { AreCandidates tableau.now entering.column candidates.old }
    ensures row { result ≡ remaining (Some (limit_of N.WIDTH)) entering.stage tableau.now entering.column (keys tableau.now) candidates.old }
    ensures candidate { IfOk result (λ row. IsCandidate tableau.now entering.column row) }
{
    if candidates.len() < 2 {
        return Ok(candidates[0]);
    }
    match leaving_by_pairs(tableau, entering, candidates) {
        Some(row) => Ok(row),
        None => leaving_by_columns(tableau, entering, candidates, numbers),
    }
}

/// The same of the first candidates in a list.
pub fn leaving_of_first<N: Exact>(
    tableau: &Tableau<N>,
    entering: EnteringColumn,
    candidates: &mut [u32],
    count: usize,
    numbers: &mut [N],
) -> Result<u32, Place>
    requires column { entering.column < width tableau.now }
    requires some { 0 < count }
    requires count { count ≤ length candidates.old }
    requires room { length candidates.old ≤ length numbers.old }
    requires rows { AreCandidates tableau.now entering.column (take count candidates.old) }
    ensures row { result ≡ remaining (Some (limit_of N.WIDTH)) entering.stage tableau.now entering.column (keys tableau.now) (take count candidates.old) }
    ensures candidate { IfOk result (λ row. IsCandidate tableau.now entering.column row) }
{
    leaving(tableau, entering, &mut candidates[..count], numbers)
}
