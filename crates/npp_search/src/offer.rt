//! What the work on a node offers, and what the costs of its paths leave.

ghost use Rattle.std.specs.Prelude.{◌≡◌, ◌<◌, ◌^◌, pos, map, length, option_map, IfOk, IfSome};
ghost use Rattle.npp_frac.specs.Rational.{whole};
ghost use Rattle.npp_frac.specs.Fits.{limit_of};
ghost use Rattle.npp_frac.specs.Wide.{value_of_wide};
ghost use Rattle.npp_rows.specs.Basic.{basic_of};
ghost use Rattle.npp_rows.specs.Caps.{path_model};
ghost use Rattle.npp_rows.specs.Limits.{IsWithinLimits};
ghost use Rattle.npp_rows.specs.Lowering.{AreClosedCovers};
ghost use Rattle.npp_rows.specs.Parts.{IsAllowed};
ghost use Rattle.npp_tree.specs.Bounds.{bound_value, at_whole};
ghost use Rattle.npp_leaf.specs.Found.{best_value};
ghost use Rattle.npp_search.specs.Search.{IsSetting, problem_in};
ghost use Rattle.npp_search.specs.Offer.{offer_with};

use crate::setting::Setting;
use npp_cover::Cover;
use npp_frac::{Exact, Frac128};
use npp_inverse::{RespondRefusal, reply_to};
use npp_net::{Instance, Listed, Memory, Tolls};
use npp_rows::{Allowed, Response, basic_of};
use npp_tree::Bound;

/// What the costs of the allowed paths leave.
pub(crate) fn basic_bound(instance: &Instance, covers: &[Cover], allowed: &Allowed) -> Bound
    requires covers { AreClosedCovers instance.now covers.now }
    requires limits { IsWithinLimits (path_model instance.now covers.now) }
    requires allowed { IsAllowed (path_model instance.now covers.now) allowed.now.parts }
    ensures { bound_value result ≡ at_whole (basic_of (path_model instance.now covers.now) allowed.now.parts) }
{
    Bound::At(whole_value(basic_of(instance, covers, allowed)))
}

/// A whole number as a fraction.
fn whole_value(number: u128) -> Frac128
    requires { number < 2 ^ 63 }
    ensures { value_of_wide result ≡ whole (pos number) }
{
    Frac128::of_whole(number as i64)
}

/// The tolls and their reply that the work on a node offers: the tolls of a point with the reply to them where it fits;
/// where there is no point the best tolls of a full choice, if there are any.
pub(crate) fn offer<N: Exact>(
    setting: &Setting,
    best: Option<(Tolls<N>, Response<N>)>,
    tolls: Option<Listed<N>>,
) -> Result<Option<(Tolls<N>, Response<N>)>, Memory>
    requires setting { IsSetting setting.now }
    requires size { IfSome tolls (λ t. length t ≡ length setting.now.table.caps) }
    ensures { IfOk result (λ o. option_map (best_value N.rational) o
        ≡ offer_with (problem_in (limit_of N.WIDTH) setting.now) (option_map (best_value N.rational) best) (option_map (map N.rational) tolls)) }
{
    let Some(tolls) = tolls else {
        return Ok(best);
    };
    match reply_to(setting.alloc, &setting.table, tolls.entries()) {
        Ok(reply) => Ok(Some((Tolls::of(tolls.into_entries()), reply))),
        Err(RespondRefusal::Overflow { .. }) => Ok(None),
        Err(RespondRefusal::Memory) => Err(Memory),
    }
}
