//! How far a node is from the destination.

ghost use Rattle.std.specs.Prelude.{MatchBool};
ghost use Rattle.npp_short.specs.Reach.{IsNearer, IsNoFarther};

/// The cost of a walk, and the number of its arcs. Among walks of one cost the one with the fewest arcs is the nearest:
/// so a walk that is followed from reach to reach ends, and repeats no node, though arcs may cost nothing.
#[derive(Clone, Copy, Debug, PartialEq, Eq)]
pub struct Reach {
    /// The sum of the costs of its arcs.
    pub cost: u64,
    /// How many arcs it has.
    pub arcs: u32,
}

impl Reach {
    /// Whether this one has the less cost, or as much cost and fewer arcs.
    pub fn is_nearer(self, other: Reach) -> bool
        ensures { MatchBool result (IsNearer self other) (IsNoFarther other self) }
    {
        self.cost < other.cost || (self.cost == other.cost && self.arcs < other.arcs)
    }
}
