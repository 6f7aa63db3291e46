//! Covers.

use crate::commodity::commodity_at;
use crate::label::Label;
use crate::path::UsefulPath;
use crate::paths::{free_path, paths_of, ranks_of};
use crate::rank::Rank;
use npp_net::{Instance, Memory, Span, Walk};
use std::alloc::Global;
use std::marker::Model;

/// The labels and the useful paths of a commodity. For each walk there is a path among these that costs no more and uses
/// each toll no more often; and whatever the tolls are, for each walk that is cheapest under them there is one that is
/// cheapest too and pays the same toll.
#[derive(Drop)]
pub struct Cover {
    labels: Vec<Label>,
    paths: Vec<UsefulPath>,
    free: u64,
}

impl Model for Cover {
    ghost use Rattle.std.specs.Prelude.{map};
    ghost use Rattle.npp_cover.specs.PathValue.{path_value};
    ghost use Rattle.npp_cover.specs.Replaces.{CoverValue};

    ghost Value = { CoverValue };

    ghost view = { λ c. record { labels = c.labels.items; paths = map path_value c.paths.items; free = c.free } };
}

impl Cover {
    ghost use Rattle.std.specs.Prelude.{◌≡◌, ◌<◌, length, map, IfOk};
    ghost use Rattle.npp_net.specs.Distance.{IsSpan};
    ghost use Rattle.npp_cover.specs.Useful.{commodity_at};
    ghost use Rattle.npp_cover.specs.PathValue.{path_value};
    ghost use Rattle.npp_cover.specs.Paths.{ArePathsOf};
    ghost use Rattle.npp_cover.specs.Closed.{AreClosed, IsFreeWalk};
    ghost use Rattle.npp_cover.specs.Replaces.{IsCoverOf};

    /// The cover of closed labels of commodity `k`, with a toll-free walk of least cost.
    pub fn of_labels(
        alloc: Global,
        instance: &Instance,
        k: u32,
        span: Span,
        labels: Vec<Label>,
        free: Walk,
    ) -> Result<Cover, Memory>
        requires k { k < length instance.now.commodities }
        requires span { IsSpan instance.now.arcs (commodity_at instance.now k) span }
        requires closed { AreClosed instance.now.arcs (commodity_at instance.now k) span labels.items }
        requires free { IsFreeWalk instance.now.arcs (commodity_at instance.now k) span.free free.arcs.items }
        ensures labels { IfOk result (λ c. c.labels ≡ labels.items) }
        ensures paths { IfOk result (λ c. ArePathsOf labels.items (commodity_at instance.now k).destination.0 span.free free.arcs.items c.paths) }
        ensures cover { IfOk result (IsCoverOf instance.now.arcs (commodity_at instance.now k) span) }
    {
        let plan = CoverPlan::of_labels(alloc, instance, k, span, labels, free)?;
        plan.into_cover(alloc)
    }

    /// The labels in the order of their numbers. The parent of label 0 is 0.
    pub fn labels(&self) -> &[Label]
        ensures { result.now ≡ self.now.labels }
    {
        &self.labels
    }

    /// The useful paths: by rising cost, then by how many tolls they have, then by the number of their set of tolls,
    /// then by the number of their label. The last one is the toll-free path.
    pub fn paths(&self) -> &[UsefulPath]
        ensures { map path_value result.now ≡ self.now.paths }
    {
        &self.paths
    }

    /// The least cost of a toll-free walk, which is the cost of the last path.
    pub fn free_cost(&self) -> u64
        ensures { result ≡ self.now.free }
    {
        self.free
    }
}

/// A cover before the walks of its paths are built. It is seen as the cover that it gives.
#[derive(Drop)]
pub struct CoverPlan {
    labels: Vec<Label>,
    ranks: Vec<Rank>,
    free: u64,
    walk: Walk,
}

impl Model for CoverPlan {
    ghost use Rattle.std.specs.Prelude.{map, ◌++◌, ◌∷◌, [], All};
    ghost use Rattle.npp_cover.specs.Paths.{path_of, free_path, AreLinked, IsRankOf};
    ghost use Rattle.npp_cover.specs.Replaces.{CoverValue};

    ghost Value = { CoverValue };

    ghost view = { λ p. record { labels = p.labels.items; paths = map (path_of p.labels.items) p.ranks.items ++ free_path p.free p.walk.arcs.items ∷ []; free = p.free } };

    ghost invariant = { λ p. AreLinked p.labels.items × All (IsRankOf p.labels.items) p.ranks.items };
}

impl CoverPlan {
    ghost use Rattle.std.specs.Prelude.{◌≡◌, ◌<◌, length, IfOk};
    ghost use Rattle.npp_net.specs.Distance.{IsSpan};
    ghost use Rattle.npp_cover.specs.Useful.{commodity_at};
    ghost use Rattle.npp_cover.specs.Paths.{ArePathsOf};
    ghost use Rattle.npp_cover.specs.Closed.{AreClosed, IsFreeWalk};
    ghost use Rattle.npp_cover.specs.Replaces.{IsCoverOf};

    /// The plan of the cover of closed labels of commodity `k`, with a toll-free walk of least cost.
    pub fn of_labels(
        alloc: Global,
        instance: &Instance,
        k: u32,
        span: Span,
        labels: Vec<Label>,
        free: Walk,
    ) -> Result<CoverPlan, Memory>
        requires k { k < length instance.now.commodities }
        requires span { IsSpan instance.now.arcs (commodity_at instance.now k) span }
        requires closed { AreClosed instance.now.arcs (commodity_at instance.now k) span labels.items }
        requires free { IsFreeWalk instance.now.arcs (commodity_at instance.now k) span.free free.arcs.items }
        ensures labels { IfOk result (λ c. c.labels ≡ labels.items) }
        ensures paths { IfOk result (λ c. ArePathsOf labels.items (commodity_at instance.now k).destination.0 span.free free.arcs.items c.paths) }
        ensures cover { IfOk result (IsCoverOf instance.now.arcs (commodity_at instance.now k) span) }
    {
        let destination = commodity_at(instance, k).destination;
        let ranks = ranks_of(alloc, &labels, destination)?;
        Ok(CoverPlan {
            labels,
            ranks,
            free: span.free,
            walk: free,
        })
    }

    /// How many paths the cover has.
    pub fn path_count(&self) -> usize
        ensures { result ≡ length self.now.paths }
    {
        self.ranks.len() + 1
    }

    /// The cover, with the walks of its paths.
    pub fn into_cover(self, alloc: Global) -> Result<Cover, Memory>
        ensures { IfOk result (λ c. c ≡ self) }
    {
        let CoverPlan {
            labels,
            ranks,
            free,
            walk,
        } = self;
        let mut paths = paths_of(alloc, &labels, &ranks)?;
        paths.push(free_path(free, walk))?;
        Ok(Cover {
            labels,
            paths,
            free,
        })
    }
}
