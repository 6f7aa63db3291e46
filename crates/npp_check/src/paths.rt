//! The path lines.

ghost use Rattle.std.specs.Prelude.{◌≡◌, ◌<◌, ◌^◌, length, map, All, IsTrue, IfOk};
ghost use Rattle.npp_frac.specs.Fits.{limit_of};
ghost use Rattle.npp_net.specs.Network.{toll_count};
ghost use Rattle.npp_cover.specs.Useful.{commodity_at};
ghost use Rattle.npp_tree.specs.Items.{item_of, HasShortLists};
ghost use Rattle.npp_tree.specs.Outcome.{path_line_value};
ghost use Rattle.npp_check.specs.Rules.{judged_as};
ghost use Rattle.npp_check.specs.PathLines.{is_walk_of, toll_of_walk, path_rules, path_line};

use crate::refusal::Rule;
use crate::sums::counted;
use npp_frac::{Exact, is_below};
use npp_net::{ArcId, Instance, TollId, is_walk, walk_cost, walk_tolls};
use npp_tree::{Item, PathLine};

/// The walk of commodity k.
pub fn path_line<N: Exact>(
    instance: &Instance,
    tolls: &[N],
    k: u32,
    item: Item<N>,
) -> Result<PathLine<N>, Rule>
    requires tolls { length tolls.now ≡ toll_count instance.now.arcs }
    requires k { k < length instance.now.commodities }
    requires short { HasShortLists item }
    ensures said { judged_as (path_line_value N.rational) result ≡ path_line (limit_of N.WIDTH) instance.now (map N.rational tolls.now) k (item_of N.rational item) }
    ensures small { IfOk result (λ p. p.cost < 2 ^ 63) }
{
    let Item::Path {
        commodity,
        cost,
        paid,
        arcs,
    } = item
    else {
        return Err(Rule::Order);
    };
    if commodity != k {
        return Err(Rule::Order);
    }
    if !is_walk_of(instance, k, cost, arcs.entries()) {
        return Err(Rule::Path);
    }
    let sum = toll_of_walk(instance, tolls, arcs.entries())?;
    if is_below(sum, paid) || is_below(paid, sum) {
        return Err(Rule::Path);
    }
    Ok(PathLine { cost, paid, arcs })
}

/// Whether the arcs are a walk of the commodity, of this cost.
fn is_walk_of(instance: &Instance, k: u32, cost: u64, arcs: &[ArcId]) -> bool
    requires k { k < length instance.now.commodities }
    requires short { length arcs.now < 2 ^ 32 }
    ensures value { result ≡ is_walk_of instance.now.arcs (commodity_at instance.now k) cost arcs.now }
    ensures small { IsTrue result → cost < 2 ^ 63 }
{
    let commodity = instance.commodities()[k as usize];
    is_walk(instance, commodity.origin, commodity.destination, arcs)
        && walk_cost(instance, arcs) == cost
}

/// The toll that a walk pays: each toll as often as the walk uses its arc, by rising toll numbers.
fn toll_of_walk<N: Exact>(instance: &Instance, tolls: &[N], arcs: &[ArcId]) -> Result<N, Rule>
    requires tolls { length tolls.now ≡ toll_count instance.now.arcs }
    requires arcs { All (λ a. a.0 < length instance.now.arcs) arcs.now }
    requires short { length arcs.now < 2 ^ 32 }
    ensures { judged_as N.rational result ≡ toll_of_walk (limit_of N.WIDTH) instance.now.arcs (map N.rational tolls.now) arcs.now }
{
    let mut sum = N::of_whole(0);
    for toll in 0..instance.tolls() {
        let times = walk_tolls(instance, arcs, TollId(toll));
        sum = counted(sum, u64::from(times), tolls[toll as usize])?;
    }
    Ok(sum)
}
