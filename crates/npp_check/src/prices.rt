//! What the printed tolls and walks are judged by once all covers stand.

ghost use Rattle.std.specs.Prelude.{◌≡◌, ◌<◌, ◌≤◌, ◌^◌, length, map, All};
ghost use Rattle.npp_frac.specs.Rational.{zero_ℚ};
ghost use Rattle.npp_frac.specs.Fits.{limit_of};
ghost use Rattle.npp_cover.specs.PathValue.{path_value};
ghost use Rattle.npp_tree.specs.Outcome.{path_line_value};
ghost use Rattle.npp_check.specs.Rules.{judged_as};
ghost use Rattle.npp_check.specs.Prices.{printed_price, revenue_of, earns_lower};
ghost use Rattle.npp_net.specs.Network.{toll_count};
ghost use Rattle.npp_rows.specs.Caps.{path_model};
ghost use Rattle.npp_check.specs.PathPrices.{sum_all, tolls_in, priced, none_below, walk_below, walks_below};

use crate::refusal::Rule;
use crate::sums::{counted, differ, sum_of, whole_number};
use npp_cover::{Cover, UsefulPath};
use npp_frac::{Exact, is_below};
use npp_net::{Instance, TollId, TollSet};
use npp_tree::PathLine;

/// The sum of the tolls of a set, begun at 0 and by rising number.
fn toll_of_set<N: Exact>(tolls: &[N], set: TollSet) -> Result<N, Rule>
    requires { length tolls.now ≤ 128 }
    ensures { judged_as N.rational result ≡ sum_all (limit_of N.WIDTH) zero_ℚ (tolls_in (map N.rational tolls.now) set) }
{
    let mut sum = N::of_whole(0);
    for (toll, value) in tolls.iter().enumerate() {
        if set.has(TollId(toll as u32)) {
            sum = sum_of(sum, *value)?;
        }
    }
    Ok(sum)
}

/// The price of a useful path.
fn useful_price<N: Exact>(tolls: &[N], path: &UsefulPath) -> Result<N, Rule>
    requires tolls { length tolls.now ≤ 128 }
    requires cost { path.now.cost < 1000000000 }
    ensures { judged_as N.rational result ≡ priced (limit_of N.WIDTH) (map N.rational tolls.now) (path_value path.now) }
{
    let toll = toll_of_set(tolls, path.tolls)?;
    sum_of(N::of_whole(path.cost as i64), toll)
}

/// The price of a printed walk.
fn printed_price<N: Exact>(line: &PathLine<N>) -> Result<N, Rule>
    requires { line.now.cost < 2 ^ 63 }
    ensures { judged_as N.rational result ≡ printed_price (limit_of N.WIDTH) (path_line_value N.rational line.now) }
{
    sum_of(whole_number(line.cost)?, line.paid)
}

/// No path of a commodity is cheaper than its printed walk.
fn none_cheaper<N: Exact>(tolls: &[N], paths: &[UsefulPath], printed: N) -> Result<(), Rule>
    requires tolls { length tolls.now ≤ 128 }
    requires costs { All (λ p. p.cost < 1000000000) paths.now }
    ensures { result ≡ none_below (limit_of N.WIDTH) (map N.rational tolls.now) (N.rational printed) (map path_value paths.now) }
{
    for path in paths {
        if is_below(useful_price(tolls, path)?, printed) {
            return Err(Rule::Path);
        }
    }
    Ok(())
}

/// No path of a cover is cheaper than the printed walk of its commodity.
fn walk_is_cheapest<N: Exact>(tolls: &[N], cover: &Cover, line: &PathLine<N>) -> Result<(), Rule>
    requires tolls { length tolls.now ≤ 128 }
    requires costs { All (λ p. p.cost < 1000000000) cover.now.paths }
    requires cost { line.now.cost < 2 ^ 63 }
    ensures { result ≡ walk_below (limit_of N.WIDTH) (map N.rational tolls.now) cover.now (path_line_value N.rational line.now) }
{
    let printed = printed_price(line)?;
    none_cheaper(tolls, cover.paths(), printed)
}

/// No useful path is cheaper than the printed walk of its commodity.
pub fn walks_are_cheapest<N: Exact>(
    tolls: &[N],
    covers: &[Cover],
    lines: &[PathLine<N>],
) -> Result<(), Rule>
    requires tolls { length tolls.now ≤ 128 }
    requires size { length covers.now ≡ length lines.now }
    requires costs { All (λ c. All (λ p. p.cost < 1000000000) c.paths) covers.now }
    requires lines { All (λ l. l.cost < 2 ^ 63) lines.now }
    ensures { result ≡ walks_below (limit_of N.WIDTH) (map N.rational tolls.now) covers.now (map (path_line_value N.rational) lines.now) }
{
    for (k, line) in lines.iter().enumerate() {
        walk_is_cheapest(tolls, &covers[k], line)?;
    }
    Ok(())
}

/// The sum of demand times toll paid.
pub fn revenue<N: Exact>(instance: &Instance, lines: &[PathLine<N>]) -> Result<N, Rule>
    requires { length lines.now ≡ length instance.now.commodities }
    ensures { judged_as N.rational result ≡ revenue_of (limit_of N.WIDTH) instance.now (map (path_line_value N.rational) lines.now) }
{
    let commodities = instance.commodities();
    let mut sum = N::of_whole(0);
    for (k, line) in lines.iter().enumerate() {
        sum = counted(sum, u64::from(commodities[k].demand), line.paid)?;
    }
    Ok(sum)
}

/// The printed walks are cheapest, and earn the lower value.
pub fn earns_lower<N: Exact>(
    instance: &Instance,
    covers: &[Cover],
    tolls: &[N],
    lines: &[PathLine<N>],
    lower: N,
) -> Result<(), Rule>
    requires tolls { length tolls.now ≡ toll_count instance.now.arcs }
    requires covers { length covers.now ≡ length lines.now }
    requires lines { length lines.now ≡ length instance.now.commodities }
    requires costs { All (λ c. All (λ p. p.cost < 1000000000) c.paths) covers.now }
    requires cost { All (λ l. l.cost < 2 ^ 63) lines.now }
    ensures { result ≡ earns_lower (limit_of N.WIDTH) instance.now (path_model instance.now covers.now) (map N.rational tolls.now) (map (path_line_value N.rational) lines.now) (N.rational lower) }
{
    let _tolls = instance.tolls();
    walks_are_cheapest(tolls, covers, lines)?;
    let sum = revenue(instance, lines)?;
    if differ(sum, lower) {
        return Err(Rule::Lower);
    }
    Ok(())
}
