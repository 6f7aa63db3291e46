//! What the useful paths of a commodity ask under tolls.

ghost use Rattle.std.specs.Prelude.{◌≡◌, ◌<◌, ◌^◌, ◌&&◌, pos, length, map, is_ok, IfOk, All, MatchBool};
ghost use Rattle.std.specs.List.{list_all};
ghost use Rattle.npp_frac.specs.Rational.{zero_ℚ, whole, is_less};
ghost use Rattle.npp_frac.specs.Fits.{limit_of, fits_add};
ghost use Rattle.npp_frac.specs.Sums.{sum_by};
ghost use Rattle.npp_net.specs.TollSets.{tolls_of};
ghost use Rattle.npp_lp.specs.Programs.{at};
ghost use Rattle.npp_cover.specs.PathValue.{path_value};
ghost use Rattle.npp_rows.specs.PathModel.{paths, path_count, useful_path};
ghost use Rattle.npp_rows.specs.Limits.{IsWithinLimits};
ghost use Rattle.npp_rows.specs.Response.{additions_fit, path_fits, taken_path, taken_toll};
ghost use Rattle.npp_inverse.specs.Offers.{HasUsefulPaths, IsOffer, IsBetter, IsNoWorse};

use npp_cover::UsefulPath;
use npp_frac::{Exact, Overflow, is_below};
use npp_net::TollSet;
use npp_rows::PathTable;
use std::cmp::Ordering;

/// A useful path under tolls.
#[derive(Clone, Copy, Debug)]
pub(crate) struct Offer<N> {
    /// The number of the path among the useful paths of its commodity.
    pub path: u32,
    /// The sum of its tolls.
    pub toll: N,
    /// Its cost and its tolls together.
    pub price: N,
}

/// The sum of the tolls of a set.
fn toll_sum<N: Exact>(set: TollSet, tolls: &[N]) -> Result<N, Overflow<N>>
    requires { All (λ a. a < length tolls.now) (tolls_of set) }
    ensures fits { is_ok result ≡ additions_fit (limit_of N.WIDTH) zero_ℚ (map (at (map N.rational tolls.now)) (tolls_of set)) }
    ensures exact { IfOk result (λ sum. N.rational sum ≡ sum_by (at (map N.rational tolls.now)) (tolls_of set)) }
{
    let mut sum = N::of_whole(0);
    for toll in set.tolls() {
        sum = sum.add(tolls[toll.0 as usize])?;
    }
    Ok(sum)
}

/// A useful path of a commodity.
fn useful_path<'t>(table: &'t PathTable, k: u32, path: u32) -> &'t UsefulPath
    requires k { k < length table.now.covers }
    requires path { path < path_count table.now k }
    ensures value { useful_path table.now k path ≡ path_value result.now }
    ensures limits { IsWithinLimits table.now }
{
    &table.paths(k)[path as usize]
}

/// What a path of a commodity asks.
fn offer_of<N: Exact>(
    table: &PathTable,
    k: u32,
    path: u32,
    tolls: &[N],
) -> Result<Offer<N>, Overflow<N>>
    requires k { k < length table.now.covers }
    requires path { path < path_count table.now k }
    requires size { length tolls.now ≡ length table.now.caps }
    requires useful { HasUsefulPaths table.now }
    ensures fits { is_ok result ≡ path_fits (limit_of N.WIDTH) table.now (map N.rational tolls.now) k path }
    ensures path { IfOk result (λ o. o.path ≡ path) }
    ensures offer { IfOk result (λ o. IsOffer table.now (map N.rational tolls.now) k path (N.rational o.toll) (N.rational o.price)) }
{
    let useful = useful_path(table, k, path);
    let toll = toll_sum(useful.tolls, tolls)?;
    let price = N::of_whole(i64::from(useful.cost as u32)).add(toll)?;
    Ok(Offer { path, toll, price })
}

/// Whether the first of two offers of one price pays more.
fn pays_more<N: Exact>(first: Offer<N>, second: Offer<N>) -> bool
    ensures { result ≡ is_less (N.rational second.toll) (N.rational first.toll) }
{
    is_below(second.toll, first.toll)
}

/// Whether the first offer has a lower price, or the same price and a higher toll.
fn is_better<N: Exact>(first: Offer<N>, second: Offer<N>) -> bool
    ensures { MatchBool result
        (IsBetter (N.rational first.price) (N.rational first.toll) (N.rational second.price) (N.rational second.toll))
        (IsNoWorse (N.rational second.price) (N.rational second.toll) (N.rational first.price) (N.rational first.toll)) }
{
    match first.price.cmp(second.price) {
        Ordering::Less => true,
        Ordering::Equal => pays_more(first, second),
        Ordering::Greater => false,
    }
}

/// How many useful paths a commodity has.
#[tactic(auto, using(crate::proofs::AskLaws::same_count))]
fn path_count(table: &PathTable, k: u32) -> u32
    requires { k < length table.now.covers }
    ensures { result ≡ path_count table.now k }
{
    table.paths(k).len() as u32
}

/// The offer that a commodity takes: of the least price, among these of the highest toll, among these the first.
pub(crate) fn taken_offer<N: Exact>(
    table: &PathTable,
    k: u32,
    tolls: &[N],
) -> Result<Offer<N>, Overflow<N>>
    requires k { k < length table.now.covers }
    requires size { length tolls.now ≡ length table.now.caps }
    requires useful { HasUsefulPaths table.now }
    ensures fits { is_ok result ≡ list_all (path_fits (limit_of N.WIDTH) table.now (map N.rational tolls.now) k) (paths table.now k) }
    ensures path { IfOk result (λ o. o.path ≡ taken_path table.now (map N.rational tolls.now) k) }
    ensures toll { IfOk result (λ o. N.rational o.toll ≡ taken_toll table.now (map N.rational tolls.now) k) }
{
    let mut taken = offer_of(table, k, 0, tolls)?;
    for path in 1..path_count(table, k) {
        let next = offer_of(table, k, path, tolls)?;
        if is_better(next, taken) {
            taken = next;
        }
    }
    Ok(taken)
}
