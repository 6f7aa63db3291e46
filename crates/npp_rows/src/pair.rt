//! Pairs: a path in conflict with each of some paths of another commodity.

ghost use Rattle.std.specs.Prelude.{◌≡◌, ◌<◌, ◌≤◌, ◌⊎◌, ◌&&◌, ◌==◌, ◌++◌, ◌∷◌, [], ℕ, nat_lt, not, false, Err, Ok, Some, None, length, map, replicate, All, IfOk, OnOk, MatchOption, MatchResult, if◌then◌else◌};
ghost use Rattle.std.specs.List.{list_all};
ghost use Rattle.npp_lp.specs.Verdict.{unless};
ghost use Rattle.npp_rows.specs.declared.cut.CutFault.{CutFault};
ghost use Rattle.npp_rows.specs.PathModel.{path_count, paths};
ghost use Rattle.npp_rows.specs.RowOrder.{are_rising as are_rising_of, is_behind};
ghost use Rattle.npp_rows.specs.Marks.{is_choice, marked};
ghost use Rattle.npp_frac.specs.Rational.{one_ℚ};
ghost use Rattle.npp_rows.specs.Cuts.{IsCut, conflict_cut, exclusion as exclusion_of, share_of, conflict_choices, is_same_cut, are_same_terms, is_same_term, is_same_number};
ghost use Rattle.npp_rows.specs.Derivations.{is_path as is_path_of, pair_fault, are_pair_cuts as are_pair_cuts_of, strange_cut};
ghost use Rattle.npp_rows.specs.Meaning.{cut_value, cut_term_value, cut_fault_value, derivation_result};

use crate::conflict::push_share;
use crate::cut::{CutFault, CutRow, CutTerm};
use crate::table::PathTable;
use npp_frac::Exact;
use npp_net::{Listed, Memory};
use std::alloc::Global;

/// A path of a commodity, and another commodity.
#[derive(Clone, Copy)]
pub(crate) struct PathAndOther {
    /// The commodity of the path.
    pub k: u32,
    /// The path.
    pub p: u32,
    /// The other commodity.
    pub l: u32,
}

/// The row of a pair, or the first fault of the earlier cuts that are to prove it.
pub(crate) fn derive_pair<N: Exact>(
    alloc: Global,
    table: &PathTable,
    earlier: &[CutRow<N>],
    pair: PathAndOther,
    cuts: &[u32],
) -> Result<CutRow<N>, CutFault<N>>
    ensures verdict { (result ≡ Err CutFault.Memory) ⊎ (derivation_result N.rational result
        ≡ unless (pair_fault table.now (map (cut_value N.rational) earlier.now) pair.k pair.p pair.l cuts.now)
        (Ok (exclusion_of pair.k pair.p pair.l (conflict_choices table.now (map (cut_value N.rational) earlier.now) pair.k pair.p pair.l cuts.now)))) }
    ensures cut { IfOk result (λ c. IsCut table.now (cut_value N.rational c)) }
{
    if !are_pair_names(table, earlier.len(), pair, cuts) {
        return Err(CutFault::BadName);
    }
    if !are_pair_cuts(cuts) {
        return Err(CutFault::BadOrder);
    }
    let marks = choices(alloc, table, earlier, pair, cuts)?;
    Ok(exclusion(alloc, pair, &marks)?)
}

/// Whether a pair names a path, another commodity and earlier cuts, of which there are so many.
fn are_pair_names(table: &PathTable, earlier: usize, pair: PathAndOther, cuts: &[u32]) -> bool
    ensures { result ≡ (is_path_of table.now pair.k pair.p && nat_lt pair.l (length table.now.covers) && not (pair.k == pair.l)
        && list_all (λ i. nat_lt i earlier) cuts.now) }
{
    table.has_path(pair.k, pair.p)
        && pair.l < table.commodities()
        && pair.k != pair.l
        && are_below(cuts, earlier)
}

/// Whether each number is below this one.
fn are_below(numbers: &[u32], count: usize) -> bool
    ensures { result ≡ list_all (λ i. nat_lt i count) numbers.now }
{
    for number in numbers {
        if *number as usize >= count {
            return false;
        }
    }
    true
}

/// Whether there are at least two cuts, each higher than the one before.
fn are_pair_cuts(cuts: &[u32]) -> bool
    ensures { result ≡ are_pair_cuts_of cuts.now }
{
    cuts.len() > 1 && are_rising(cuts)
}

/// Whether each number is above the one before.
fn are_rising(numbers: &[u32]) -> bool
    ensures { result ≡ are_rising_of nat_lt numbers.now }
{
    let mut last = None;
    for number in numbers {
        if !is_above(last, *number) {
            return false;
        }
        last = Some(*number);
    }
    true
}

/// Whether a number is above another, where there is one.
fn is_above(last: Option<u32>, number: u32) -> bool
    ensures { result ≡ is_behind nat_lt last number }
{
    match last {
        None => true,
        Some(last) => last < number,
    }
}

/// Which paths of the other commodity the cuts say to be in conflict with the path, or the first cut that says no such
/// thing.
fn choices<N: Exact>(
    alloc: Global,
    table: &PathTable,
    earlier: &[CutRow<N>],
    pair: PathAndOther,
    cuts: &[u32],
) -> Result<Vec<bool>, CutFault<N>>
    requires pair { pair.l < length table.now.covers }
    requires cuts { All (λ i. i < length earlier.now) cuts.now }
    ensures marks { IfOk result (λ v. v.items
        ≡ map (is_choice (map (cut_value N.rational) earlier.now) pair.k pair.p pair.l cuts.now) (paths table.now pair.l)) }
    ensures strange { MatchResult result
        (λ v. strange_cut table.now (map (cut_value N.rational) earlier.now) pair.k pair.p pair.l cuts.now ≡ None)
        (λ e. (e ≡ CutFault.Memory) ⊎ (strange_cut table.now (map (cut_value N.rational) earlier.now) pair.k pair.p pair.l cuts.now ≡ Some (cut_fault_value N.rational e))) }
    ensures few { IfOk result (λ v. length v.items ≤ 16777216) }
{
    let count = table.paths(pair.l).len();
    let mut marks = unmarked(alloc, count)?;
    for i in cuts {
        match partner(&earlier[*i as usize], pair, count) {
            Some(q) => marks[q as usize] = true,
            None => return Err(CutFault::NotAConflict(*i)),
        }
    }
    Ok(marks)
}

/// So many marks, none of them set.
fn unmarked(alloc: Global, count: usize) -> Result<Vec<bool>, Memory>
    ensures { IfOk result (λ v. v.items ≡ replicate count false) }
{
    Ok(vec![in alloc; false; count]?)
}

/// The path of the other commodity of which a cut says that it is in conflict with the path, where the cut says exactly
/// that of one of so many paths.
fn partner<N: Exact>(cut: &CutRow<N>, pair: PathAndOther, count: usize) -> Option<u32>
    ensures { MatchOption result
        ((q : ℕ) → q < count → cut_value N.rational cut.now ≡ conflict_cut pair.k pair.p pair.l q → ⊥)
        (λ q. (q < count) × (cut_value N.rational cut.now ≡ conflict_cut pair.k pair.p pair.l q)) }
{
    let path = other_path(cut.terms.entries(), pair)?;
    if path as usize >= count {
        return None;
    }
    if !is_conflict(cut, pair, path) {
        return None;
    }
    Some(path)
}

/// The path of the other commodity, if terms are those of a conflict.
fn other_path<N: Exact>(terms: &[CutTerm<N>], pair: PathAndOther) -> Option<u32>
    ensures { (q : ℕ) → map (cut_term_value N.rational) terms.now ≡ (conflict_cut pair.k pair.p pair.l q).terms → result ≡ Some q }
{
    if terms.len() != 2 {
        return None;
    }
    if pair.k < pair.l {
        Some(terms[1].path)
    } else {
        Some(terms[0].path)
    }
}

/// Whether a cut says exactly that the path is in conflict with this path of the other commodity.
fn is_conflict<N: Exact>(cut: &CutRow<N>, pair: PathAndOther, q: u32) -> bool
    ensures { result ≡ is_same_cut (cut_value N.rational cut.now) (conflict_cut pair.k pair.p pair.l q) }
{
    are_conflict_terms(cut.terms.entries(), pair, q) && is_one(cut.right)
}

/// Whether terms are exactly the share of the path and that of this path of the other commodity, in order.
fn are_conflict_terms<N: Exact>(terms: &[CutTerm<N>], pair: PathAndOther, q: u32) -> bool
    ensures { result ≡ are_same_terms (map (cut_term_value N.rational) terms.now) (conflict_cut pair.k pair.p pair.l q).terms }
{
    if terms.len() != 2 {
        return false;
    }
    if pair.k < pair.l {
        are_shares(terms[0], terms[1], pair, q)
    } else {
        are_shares(terms[1], terms[0], pair, q)
    }
}

/// Whether one term is the share of the path and another that of this path of the other commodity.
fn are_shares<N: Exact>(one: CutTerm<N>, other: CutTerm<N>, pair: PathAndOther, q: u32) -> bool
    ensures { result ≡ (is_same_term (cut_term_value N.rational one) (share_of pair.k pair.p) && is_same_term (cut_term_value N.rational other) (share_of pair.l q)) }
{
    is_share(one, pair.k, pair.p) && is_share(other, pair.l, q)
}

/// Whether a term is the share of a path, once.
fn is_share<N: Exact>(term: CutTerm<N>, k: u32, p: u32) -> bool
    ensures { result ≡ is_same_term (cut_term_value N.rational term) (share_of k p) }
{
    term.commodity == k && term.path == p && is_one(term.value)
}

/// Whether a number is 1.
fn is_one<N: Exact>(number: N) -> bool
    ensures { result ≡ is_same_number (N.rational number) one_ℚ }
{
    number.cmp(N::of_whole(1)).is_eq()
}

/// The row that the path and the marked paths of the other commodity have shares of at most 1 together.
fn exclusion<N: Exact>(
    alloc: Global,
    pair: PathAndOther,
    marks: &[bool],
) -> Result<CutRow<N>, Memory>
    requires { length marks.now ≤ 16777216 }
    ensures { IfOk result (λ c. cut_value N.rational c ≡ exclusion_of pair.k pair.p pair.l (marked marks.now)) }
{
    let terms = exclusion_terms(alloc, pair, marks)?;
    Ok(CutRow {
        terms: Listed::of(terms),
        right: N::of_whole(1),
    })
}

/// The shares of the path and of the marked paths of the other commodity, by rising commodity.
fn exclusion_terms<N: Exact>(
    alloc: Global,
    pair: PathAndOther,
    marks: &[bool],
) -> Result<Vec<CutTerm<N>>, Memory>
    requires { length marks.now ≤ 16777216 }
    ensures { IfOk result (λ v. map (cut_term_value N.rational) v.items ≡ (exclusion_of pair.k pair.p pair.l (marked marks.now)).terms) }
{
    let mut terms = Vec::new(alloc);
    if pair.k < pair.l {
        push_share(&mut terms, pair.k, pair.p)?;
        push_marked(&mut terms, pair.l, marks)?;
        return Ok(terms);
    }
    push_marked(&mut terms, pair.l, marks)?;
    push_share(&mut terms, pair.k, pair.p)?;
    Ok(terms)
}

/// Adds the shares of the marked paths of a commodity, once.
fn push_marked<N: Exact>(terms: &mut Vec<CutTerm<N>>, l: u32, marks: &[bool]) -> Result<(), Memory>
    requires { length marks.now ≤ 16777216 }
    ensures { OnOk result (map (cut_term_value N.rational) terms.new.items ≡ map (cut_term_value N.rational) terms.old.items ++ map (share_of l) (marked marks.now)) }
{
    for (q, mark) in marks.iter().enumerate() {
        push_where(terms, l, q as u32, *mark)?;
    }
    Ok(())
}

/// Adds the share of a path, once, where it is marked.
fn push_where<N: Exact>(
    terms: &mut Vec<CutTerm<N>>,
    l: u32,
    q: u32,
    mark: bool,
) -> Result<(), Memory>
    ensures { OnOk result (map (cut_term_value N.rational) terms.new.items
        ≡ map (cut_term_value N.rational) terms.old.items ++ map (share_of l) (if mark then q ∷ [] else [])) }
{
    if mark {
        push_share(terms, l, q)?;
    }
    Ok(())
}
