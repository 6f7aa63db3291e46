//! The useful paths of an instance, of which all programs are made.

ghost use Rattle.std.specs.Prelude.{◌≡◌, ◌<◌, ◌≤◌, length, map, slice_index_or, IfOk};
ghost use Rattle.npp_cover.specs.PathValue.{path_value};
ghost use Rattle.npp_cover.specs.Replaces.{sum_below, path_at};
ghost use Rattle.npp_rows.specs.PathModel.{cover_at, path_count, path_cost, cap_at, demand_at};
ghost use Rattle.npp_rows.specs.Caps.{path_model};
ghost use Rattle.npp_rows.specs.Limits.{IsWithinLimits, path_total};
ghost use Rattle.npp_rows.specs.Lowering.{AreClosedCovers};

use crate::starts::path_starts;
use crate::toll_caps::caps;
use npp_cover::{Cover, UsefulPath};
use npp_net::{Instance, Memory};
use std::alloc::Global;
use std::marker::Model;

/// The caps, demands and useful paths of an instance. It is made once for an instance with its covers, and all programs
/// are made from it.
#[derive(Drop)]
pub struct PathTable<'a> {
    instance: &'a Instance,
    covers: &'a [Cover],
    caps: Vec<u64>,
    starts: Vec<u32>,
}

impl<'a> Model for PathTable<'a> {
    ghost use Rattle.std.specs.Prelude.{◌≡◌, map, length, slice_index_or};
    ghost use Rattle.npp_rows.specs.PathModel.{PathModel, no_cover};

    ghost Value = { PathModel };

    ghost use Rattle.npp_rows.specs.Limits.{IsWithinLimits};
    ghost use Rattle.npp_rows.specs.Starts.{starts_of};

    ghost view = { λ t. record { caps = t.caps.items; demands = map (λ k. k.demand) t.instance.now.commodities; covers = t.covers.now } };

    ghost invariant = { λ t.
        IsWithinLimits (record { caps = t.caps.items; demands = map (λ k. k.demand) t.instance.now.commodities; covers = t.covers.now })
        × (t.starts.items ≡ starts_of (λ k. length (slice_index_or t.covers.now k no_cover).paths) (length t.covers.now)) };
}

impl<'a> PathTable<'a> {
    /// The table of an instance with its covers, one for each commodity in order.
    ///
    /// The covers have at most 16,777,216 paths together, as covers of at most 65,536 labels each do. By the limits of an
    /// instance all caps, demands and costs are below 2^31, so programs of every width have them.
    pub fn new(
        alloc: Global,
        instance: &'a Instance,
        covers: &'a [Cover],
    ) -> Result<PathTable<'a>, Memory>
        requires covers { AreClosedCovers instance.now covers.now }
        requires few { path_total covers.now ≤ 16777216 }
        ensures paths { IfOk result (λ t. t ≡ path_model instance.now covers.now) }
        ensures limits { IfOk result IsWithinLimits }
    {
        let caps = caps(alloc, instance, covers)?;
        let starts = path_starts(alloc, covers)?;
        Ok(PathTable {
            instance,
            covers,
            caps,
            starts,
        })
    }

    /// How many tolls there are.
    pub fn tolls(&self) -> u32
        ensures count { result ≡ length self.now.caps }
        ensures limits { IsWithinLimits self.now }
    {
        self.caps.len() as u32
    }

    /// How many commodities there are.
    pub fn commodities(&self) -> u32
        ensures count { result ≡ length self.now.covers }
        ensures limits { IsWithinLimits self.now }
    {
        self.covers.len() as u32
    }

    /// The cap of a toll, below 1,000,000,000.
    pub fn cap(&self, toll: u32) -> u32
        requires { toll < length self.now.caps }
        ensures value { result ≡ cap_at self.now toll }
        ensures small { result < 1000000000 }
    {
        self.caps[toll as usize] as u32
    }

    /// How many travellers a commodity has, at most 1,000,000.
    pub fn demand(&self, k: u32) -> u32
        requires { k < length self.now.covers }
        ensures value { result ≡ demand_at self.now k }
        ensures small { result ≤ 1000000 }
    {
        self.instance.commodities()[k as usize].demand
    }

    /// The useful paths of a commodity.
    pub fn paths(&self, k: u32) -> &[UsefulPath]
        requires { k < length self.now.covers }
        ensures paths { map path_value result.now ≡ (cover_at self.now k).paths }
        ensures few { length result.now ≤ 16777216 }
        ensures limits { IsWithinLimits self.now }
    {
        self.covers[k as usize].paths()
    }

    /// The cost of a useful path of a commodity, below 1,000,000,000.
    pub fn cost(&self, k: u32, q: u32) -> u32
        requires k { k < length self.now.covers }
        requires q { q < path_count self.now k }
        ensures value { result ≡ path_cost self.now k q }
        ensures small { result < 1000000000 }
    {
        cost_at(self.paths(k), q) as u32
    }

    /// The cost of the toll-free path of a commodity, below 1,000,000,000.
    pub fn free_cost(&self, k: u32) -> u32
        requires { k < length self.now.covers }
        ensures value { result ≡ (cover_at self.now k).free }
        ensures small { result < 1000000000 }
    {
        self.covers[k as usize].free_cost() as u32
    }

    /// How many useful paths the commodities below this number have together.
    pub fn paths_below(&self, k: u32) -> u32
        requires { k ≤ length self.now.covers }
        ensures value { result ≡ sum_below (path_count self.now) k }
        ensures small { result ≤ 16777216 }
    {
        self.starts[k as usize]
    }
}

/// The cost of a path.
fn cost_at(paths: &[UsefulPath], q: u32) -> u64
    requires { q < length paths.now }
    ensures { result ≡ (path_at (map path_value paths.now) q).cost }
{
    paths[q as usize].cost
}
