//! Which tolls may be set.

ghost use Rattle.std.specs.Prelude.{◌<◌, ◌↔◌, IsTrue};
ghost use Rattle.npp_frac.specs.Wide.{value_of_wide};
ghost use Rattle.npp_net.specs.Network.{toll_count};
ghost use Rattle.npp_toll_text.specs.Allowed.{IsToll};

use crate::line::fraction_of;
use npp_frac::{Frac128, is_below, is_negative};
use npp_net::{Instance, TollId};

/// Whether this is a toll of the toll arc: not negative, and not above its ceiling.
pub(crate) fn is_allowed(instance: &Instance, toll: TollId, value: Frac128) -> bool
    requires { toll.0 < toll_count instance.now.arcs }
    ensures { IsTrue result ↔ IsToll instance.now.arcs toll.0 (value_of_wide value) }
{
    if is_negative(value) {
        return false;
    }
    match instance.ceiling(toll) {
        None => true,
        Some(ceiling) => !is_below(fraction_of(ceiling), value),
    }
}
