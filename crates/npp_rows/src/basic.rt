//! What the allowed paths can earn at most, by their costs alone.

ghost use Rattle.std.specs.Prelude.{◌≡◌, ◌<◌, ◌*◌, ◌^◌, min, fold, map, length, All};
ghost use Rattle.npp_cover.specs.Replaces.{path_at};
ghost use Rattle.npp_rows.specs.Caps.{path_model};
ghost use Rattle.npp_rows.specs.Basic.{basic_of};
ghost use Rattle.npp_rows.specs.Lowering.{AreClosedCovers};
ghost use Rattle.npp_rows.specs.Promises.{BasicHolds};
ghost use Rattle.npp_rows.specs.Parts.{IsAllowed};

use crate::allowed::Allowed;
use npp_cover::Cover;
use npp_net::Instance;

/// The sum over the commodities of demand times the difference of the toll-free cost and the least cost of an allowed
/// path. No outcome in which each commodity takes an allowed path earns more.
///
/// The covers are those of the instance, one for each commodity in order. It takes no memory.
pub fn basic_of(instance: &Instance, covers: &[Cover], allowed: &Allowed) -> u128
    requires covers { AreClosedCovers instance.now covers.now }
    requires allowed { IsAllowed (path_model instance.now covers.now) allowed.now.parts }
    ensures value { result ≡ basic_of (path_model instance.now covers.now) allowed.now.parts }
    ensures bound { BasicHolds instance.now (path_model instance.now covers.now) allowed.now.parts }
{
    let commodities = instance.commodities();
    let parts = allowed.parts.entries();
    let mut total = 0;
    for (k, cover) in covers.iter().enumerate() {
        let free = cover.free_cost();
        let least = least_cost(cover, parts[k].entries());
        total += most(commodities[k].demand, free.saturating_sub(least));
    }
    total
}

/// What so many travellers pay where each pays this much.
fn most(demand: u32, paid: u64) -> u128
    ensures value { result ≡ demand * paid }
    ensures small { result < 2 ^ 96 }
{
    u128::from(demand) * u128::from(paid)
}

/// The least cost of the paths of a part, and the toll-free cost where that is less.
fn least_cost(cover: &Cover, part: &[u32]) -> u64
    requires { All (λ p. p < length cover.now.paths) part.now }
    ensures { result ≡ fold min cover.now.free (map (λ p. (path_at cover.now.paths p).cost) part.now) }
{
    let paths = cover.paths();
    let mut least = cover.free_cost();
    for path in part {
        least = least.min(paths[*path as usize].cost);
    }
    least
}
