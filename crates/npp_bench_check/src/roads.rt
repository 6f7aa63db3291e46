//! Commodities that share toll roads, each beside a toll-free road of its own.

use npp_net::{Commodity, Instance, NetArc, NodeId};
use std::alloc::{AllocError, Global};

/// How many commodities share how many toll roads.
#[derive(Clone, Copy)]
pub struct Roads {
    /// How many commodities there are, at most 100.
    pub commodities: u32,
    /// How many toll roads there are, at most 10.
    pub tolls: u32,
    ghost few: { commodities ≤ 100 },
    ghost short: { tolls ≤ 10 },
}

ghost use Rattle.std.specs.Prelude.{◌≤◌};

impl Roads {
    /// How many travellers a commodity has.
    pub fn demand(self, commodity: u32) -> u32 {
        commodity % 7 + 1
    }

    /// What the toll-free road of a commodity costs. The toll roads cost 2 and more.
    pub fn free_cost(self, commodity: u32) -> u32 {
        commodity % 100 + 20
    }

    /// What a commodity pays at most: for each traveller the cost of the toll-free road less that of the cheapest toll road.
    pub fn worth(self, commodity: u32) -> u32 {
        let gap = self.free_cost(commodity).saturating_sub(2);
        self.demand(commodity).saturating_mul(gap)
    }

    /// The arc from the origin of a commodity to the toll roads.
    pub fn approach(self, commodity: u32) -> u32 {
        self.tolls + commodity % 100 * 2
    }

    /// The toll-free road of a commodity.
    pub fn free_road(self, commodity: u32) -> u32 {
        self.tolls + commodity % 100 * 2 + 1
    }

    /// The instance: the toll roads lead from node 0 to node 1.
    pub fn instance(self, alloc: Global) -> Result<Option<Instance>, AllocError> {
        let mut arcs = Vec::new(alloc);
        for toll in 0..self.tolls {
            arcs.push(road(0, 1, 2 + toll, true))?;
        }
        let mut commodities = Vec::new(alloc);
        for k in 0..self.commodities {
            arcs.push(road(2 + k, 0, 0, false))?;
            arcs.push(road(2 + k, 1, self.free_cost(k), false))?;
            commodities.push(Commodity {
                origin: NodeId(2 + k),
                destination: NodeId(1),
                demand: self.demand(k),
            })?;
        }
        Ok(Instance::new(alloc, 2 + self.commodities, arcs, commodities).ok())
    }
}

fn road(tail: u32, head: u32, cost: u32, toll: bool) -> NetArc {
    NetArc {
        tail: NodeId(tail),
        head: NodeId(head),
        cost,
        toll,
        ceiling: None,
    }
}
