//! Where a node is split.

ghost use Rattle.std.specs.Prelude.{◌≡◌, ◌<◌, ◌≤◌, ◌^◌, ℕ, length, map};
ghost use Rattle.npp_search.specs.Rule.{HasSeveral, IsFirstGreatest, IsByCount, IsByShares, division_by, shares_at};
ghost use Rattle.npp_search.specs.Scan.{IsCandidate, AreSharesOf};

use npp_frac::{Exact, is_below};
use npp_net::Listed;

/// The first child of a node allows this path alone for a commodity, and the second child the rest.
#[derive(Clone, Copy, Debug)]
pub(crate) struct Division {
    pub(crate) commodity: u32,
    pub(crate) path: u32,
}

/// The commodity with the most paths, and its first path. Of several such commodities it is the first.
pub(crate) fn by_count(parts: &[Listed<u32>]) -> Division
    requires several { (k : ℕ) × HasSeveral parts.now k }
    requires few { length parts.now < 2 ^ 32 }
    ensures { IsByCount parts.now (division_by result.commodity result.path) }
{
    let mut most = 0;
    for k in 1..parts.len() {
        if parts[most].len() < parts[k].len() {
            most = k;
        }
    }
    Division {
        commodity: most as u32,
        path: parts[most].entries()[0],
    }
}

/// The place of the greatest number, and of several such the first.
fn greatest<N: Exact>(numbers: &[N]) -> usize
    requires { 0 < length numbers.now }
    ensures { IsFirstGreatest (map N.rational numbers.now) result }
{
    let mut best = 0;
    for place in 1..numbers.len() {
        if is_below(numbers[best], numbers[place]) {
            best = place;
        }
    }
    best
}

/// A commodity with the place and the size of its greatest share.
#[derive(Clone, Copy)]
struct Candidate<N> {
    commodity: usize,
    place: usize,
    share: N,
}

/// The greatest share of a commodity.
fn candidate_of<N: Exact>(shares: &[Listed<N>], commodity: usize) -> Candidate<N>
    requires in_range { commodity < length shares.now }
    requires some { 0 < length (shares_at (map (map N.rational) shares.now) commodity) }
    ensures { IsCandidate N.rational (map (map N.rational) shares.now) commodity result }
{
    let numbers = shares[commodity].entries();
    let place = greatest(numbers);
    Candidate {
        commodity,
        place,
        share: numbers[place],
    }
}

/// The first commodity that has several paths.
fn first_several(parts: &[Listed<u32>]) -> usize
    requires { (k : ℕ) × HasSeveral parts.now k }
    ensures several { HasSeveral parts.now result }
    ensures first { (k : ℕ) → HasSeveral parts.now k → result ≤ k }
{
    for k in 0..parts.len() {
        if parts[k].len() >= 2 {
            return k;
        }
    }
    unreachable!()
}

/// Among the commodities with several paths the one whose greatest share is least, and its path with that share. Of several
/// such commodities, and of several such paths, it is the first.
pub(crate) fn by_shares<N: Exact>(parts: &[Listed<u32>], shares: &[Listed<N>]) -> Division
    requires several { (k : ℕ) × HasSeveral parts.now k }
    requires few { length parts.now < 2 ^ 32 }
    requires shares { AreSharesOf parts.now (map (map N.rational) shares.now) }
    ensures { IsByShares parts.now (map (map N.rational) shares.now) (division_by result.commodity result.path) }
{
    let mut least = candidate_of(shares, first_several(parts));
    for k in least.commodity + 1..parts.len() {
        if parts[k].len() >= 2 {
            let next = candidate_of(shares, k);
            if is_below(next.share, least.share) {
                least = next;
            }
        }
    }
    Division {
        commodity: least.commodity as u32,
        path: parts[least.commodity].entries()[least.place],
    }
}
