//! The commodity of a cover.

ghost use Rattle.std.specs.Prelude.{◌≡◌, ◌<◌, length};
ghost use Rattle.npp_net.specs.Network.{IsNetwork, IsCommodity};
ghost use Rattle.npp_cover.specs.Useful.{commodity_at};

use npp_net::{Commodity, Instance};

/// The commodity of this number.
pub(crate) fn commodity_at(instance: &Instance, k: u32) -> Commodity
    requires { k < length instance.now.commodities }
    ensures same { result ≡ commodity_at instance.now k }
    ensures network { IsNetwork instance.now }
    ensures limits { IsCommodity instance.now.nodes result }
{
    instance.commodities()[k as usize]
}
