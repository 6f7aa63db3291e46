//! Cuts of useful paths.

ghost use Rattle.std.specs.Prelude.{◌≡◌, ◌≢◌, ◌≤◌, length, map, IsTrue, All};
ghost use Rattle.npp_frac.specs.Rational.{Rational, zero_ℚ};
ghost use Rattle.npp_net.specs.Network.{Network};
ghost use Rattle.npp_rows.specs.Caps.{path_model};
ghost use Rattle.npp_rows.specs.Cuts.{IsCut, IsShareOf, is_share_before};
ghost use Rattle.npp_rows.specs.Meaning.{cut_value, cut_term_value};

use crate::numbers::{Number, fraction};
use npp_cover::Cover;
use npp_frac::{Exact, is_zero};
use npp_net::{Listed, Memory};
use npp_rows::{CutRow, CutTerm};
use std::alloc::Global;

/// The cut of these terms, each by its commodity, its path and its coefficient, and this right side.
pub fn cut<N: Exact>(
    alloc: Global,
    terms: &[(u32, u32, N)],
    right: N,
) -> Result<CutRow<N>, Memory> {
    let mut list = Vec::new(alloc);
    for term in terms {
        let (commodity, path, value) = *term;
        list.push(CutTerm {
            commodity,
            path,
            value,
        })?;
    }
    Ok(CutRow {
        terms: Listed::of(list),
        right,
    })
}

/// Cuts as they are written for every width, each by its terms and its right side. A term has its commodity, its path and its
/// coefficient.
pub type Cuts<'a> = &'a [(&'a [(u32, u32, Number)], Number)];

/// Cuts at a width. None where a number does not fit it, or memory is wanting.
pub fn cuts_of<N: Exact>(alloc: Global, cuts: Cuts) -> Option<Vec<CutRow<N>>> {
    let mut list = Vec::new(alloc);
    for (terms, (num, den)) in cuts {
        let terms = terms_of(alloc, terms)?;
        let right = fraction(*num, *den)?;
        let one = cut(alloc, &terms, right).ok()?;
        list.push(one).ok()?;
    }
    Some(list)
}

/// The terms of a cut at a width.
fn terms_of<N: Exact>(alloc: Global, terms: &[(u32, u32, Number)]) -> Option<Vec<(u32, u32, N)>> {
    let mut list = Vec::new(alloc);
    for term in terms {
        let (commodity, path, (num, den)) = *term;
        let value = fraction(num, den)?;
        list.push((commodity, path, value)).ok()?;
    }
    Some(list)
}

/// Whether the terms of cuts name useful paths, by rising commodity and then by rising path, and none is 0; and whether the cuts are
/// at most 16,777,216.
pub fn are_cuts<N: Exact>(covers: &[Cover], cuts: &[CutRow<N>]) -> bool
    ensures cuts { IsTrue result → (net : Network) → All (λ c. IsCut (path_model net covers.now) (cut_value N.rational c)) cuts.now }
    ensures few { IsTrue result → length cuts.now ≤ 16777216 }
{
    if cuts.len() > 16_777_216 {
        return false;
    }
    for cut in cuts {
        if !is_cut(covers, cut) {
            return false;
        }
    }
    true
}

/// Whether the terms of a cut are as they must be.
fn is_cut<N: Exact>(covers: &[Cover], cut: &CutRow<N>) -> bool
    ensures { IsTrue result → (net : Network) → IsCut (path_model net covers.now) (cut_value N.rational cut.now) }
{
    are_terms(covers, cut.terms.entries())
}

/// Whether these can be the terms of a cut.
fn are_terms<N: Exact>(covers: &[Cover], terms: &[CutTerm<N>]) -> bool
    ensures { IsTrue result → (net : Network) (right : Rational) → IsCut (path_model net covers.now) (record { terms = map (cut_term_value N.rational) terms.now; right = right }) }
{
    for (i, term) in terms.iter().enumerate() {
        if !is_term(covers, *term) || !are_before(&terms[..i], *term) {
            return false;
        }
    }
    true
}

/// Whether a term names a useful path and is not 0.
fn is_term<N: Exact>(covers: &[Cover], term: CutTerm<N>) -> bool
    ensures share { IsTrue result → (net : Network) → IsShareOf (path_model net covers.now) (cut_term_value N.rational term) }
    ensures nonzero { IsTrue result → N.rational term.value ≢ zero_ℚ }
{
    let k = term.commodity as usize;
    if k >= covers.len() || is_zero(term.value) {
        return false;
    }
    (term.path as usize) < covers[k].paths().len()
}

/// Whether all of some terms stand before another.
fn are_before<N: Exact>(terms: &[CutTerm<N>], term: CutTerm<N>) -> bool
    ensures { IsTrue result → All (λ s. IsTrue (is_share_before s (cut_term_value N.rational term))) (map (cut_term_value N.rational) terms.now) }
{
    for other in terms {
        if !is_before(*other, term) {
            return false;
        }
    }
    true
}

/// Whether a term stands before another: its commodity is lower, or the same and its path is lower.
fn is_before<N: Exact>(first: CutTerm<N>, second: CutTerm<N>) -> bool
    ensures { result ≡ is_share_before (cut_term_value N.rational first) (cut_term_value N.rational second) }
{
    first.commodity < second.commodity
        || (first.commodity == second.commodity && first.path < second.path)
}
