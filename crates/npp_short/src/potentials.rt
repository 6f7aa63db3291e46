//! The least costs to one destination.

ghost use Rattle.std.specs.Prelude.{◌≡◌, ◌<◌, length};
ghost use Rattle.npp_short.specs.Reach.{cost_at};

use crate::reach::Reach;
use npp_net::NodeId;
use std::marker::Model;

/// The least cost of a walk from each node to one destination, where there is such a walk.
#[derive(Drop)]
pub struct Potentials {
    table: Vec<Option<Reach>>,
}

impl Model for Potentials {
    ghost use Rattle.std.specs.Prelude.{List, Option};
    ghost use Rattle.npp_short.specs.declared.reach.Reach.{Reach};

    ghost Value = { List (Option Reach) };

    ghost view = { λ p. p.table.items };
}

impl Potentials {
    pub(crate) fn of_table(table: Vec<Option<Reach>>) -> Potentials
        ensures { result ≡ table.items }
    {
        Potentials { table }
    }

    pub(crate) fn table(&self) -> &[Option<Reach>]
        ensures { result.now ≡ self.now }
    {
        &self.table
    }

    /// The least cost of a walk from the node to the destination, or None where there is no such walk.
    pub fn at(&self, node: NodeId) -> Option<u64>
        requires { node.0 < length self.now }
        ensures { result ≡ cost_at self.now node.0 }
    {
        self.table[node.0 as usize].map(|reach| reach.cost)
    }
}
