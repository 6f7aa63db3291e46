//! The basic bound.

ghost use Rattle.std.specs.Prelude.{◌≡◌, ◌<◌, ◌≤◌, ◌*◌, ◌-◌, ◌^◌, pos};
ghost use Rattle.npp_net.specs.Outcome.{IsUpperBound};
ghost use Rattle.npp_bounds.specs.Spans.{AreSpans, basic};

use npp_net::{Commodity, Instance, Span};

/// The sum over the commodities of demand times the difference of the two least costs, which no outcome exceeds.
///
/// The spans are those of the instance, one for each commodity in order.
pub fn basic_bound(instance: &Instance, spans: &[Span]) -> u128
    requires { AreSpans instance.now.arcs instance.now.commodities spans.now }
    ensures value { result ≡ basic instance.now.commodities spans.now }
    ensures bound { IsUpperBound instance.now (pos result) 1 }
{
    let commodities = instance.commodities();
    let mut total: u128 = 0;
    for (i, span) in spans.iter().enumerate() {
        total += most(commodities[i], *span);
    }
    total
}

/// The most that the travellers of a commodity pay.
fn most(k: Commodity, span: Span) -> u128
    requires demand { k.demand ≤ 1000000 }
    requires above { span.zero ≤ span.free }
    ensures value { result ≡ k.demand * (span.free - span.zero) }
    ensures small { result < 2 ^ 84 }
{
    u128::from(k.demand) * u128::from(span.free - span.zero)
}
