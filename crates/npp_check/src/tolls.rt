//! The toll lines.

ghost use Rattle.std.specs.Prelude.{◌≡◌, ◌<◌, Option, pos};
ghost use Rattle.npp_net.specs.Network.{toll_count};
ghost use Rattle.npp_tree.specs.Items.{item_of};
ghost use Rattle.npp_check.specs.Rules.{judged_as};
ghost use Rattle.npp_check.specs.TollLines.{is_above, toll_line};

use crate::refusal::Rule;
use npp_frac::{Exact, Frac128, is_below, is_negative};
use npp_net::{Instance, TollId};
use npp_tree::Item;

/// The toll of the toll arc of this number.
pub fn toll_line<N: Exact>(instance: &Instance, toll: TollId, item: &Item<N>) -> Result<N, Rule>
    requires { toll.0 < toll_count instance.now.arcs }
    ensures { judged_as N.rational result ≡ toll_line instance.now toll.0 (item_of N.rational item.now) }
{
    match item {
        Item::Toll { toll: named, value } => {
            if *named != toll.0 {
                Err(Rule::Order)
            } else if is_negative(*value) || is_above(*value, instance.ceiling(toll)) {
                Err(Rule::Tolls)
            } else {
                Ok(*value)
            }
        }
        _ => Err(Rule::Order),
    }
}

/// Whether the toll is above the ceiling.
fn is_above<N: Exact>(value: N, ceiling: Option<u32>) -> bool
    ensures { result ≡ is_above (N.rational value) ceiling }
{
    match ceiling {
        None => false,
        Some(most) => is_below(Frac128::of_whole(i64::from(most)), value.widen()),
    }
}
