//! Nodes that wait, by the order in which they are taken.

ghost use Rattle.std.specs.Prelude.{◌≡◌};
ghost use Rattle.npp_search.specs.Rank.{level_of, ranked_cmp, ranked_eq, ranked_partial_cmp};
ghost use Rattle.npp_search.specs.RankLaws.{ranked_total, ranked_equiv, ranked_partial_equiv, ranked_partial_order, ranked_answers, ranked_ties};

use crate::picker::NodeOrder;
use crate::waiting::Waiting;
use npp_frac::Exact;
use std::cmp::Ordering;

/// A node that waits, with its level in an order. Of two the greater is taken first: the one of the greater level, then the
/// one with the greater bound, and then the one that was made first.
#[derive(Drop)]
pub(crate) struct Ranked {
    pub(crate) level: u32,
    pub(crate) node: Waiting,
}

/// The level of a node: by depth, where this is what counts first.
pub(crate) fn level_of(order: NodeOrder, node: &Waiting) -> u32
    ensures { result ≡ level_of order node.now.seen }
{
    match order {
        NodeOrder::GreatestBound => 0,
        NodeOrder::GreatestDepth => node.seen.depth,
    }
}

impl Ord for Ranked {
    ghost cmp = { ranked_cmp };

    ghost total = { ranked_total };

    ghost matches_partial_cmp = { ranked_answers };

    ghost matches_eq = { ranked_ties };

    fn cmp(&self, other: &Ranked) -> Ordering {
        let bounds = Exact::cmp(self.node.seen.bound, other.node.seen.bound);
        let numbers = other.node.seen.number.cmp(&self.node.seen.number);
        self.level.cmp(&other.level).then(bounds.then(numbers))
    }
}

impl PartialOrd for Ranked {
    ghost partial_cmp = { ranked_partial_cmp };

    ghost laws = { ranked_partial_order };

    fn partial_cmp(&self, other: &Ranked) -> Option<Ordering> {
        Some(self.cmp(other))
    }
}

impl PartialEq for Ranked {
    ghost eq = { ranked_eq };

    ghost laws = { ranked_partial_equiv };

    fn eq(&self, other: &Ranked) -> bool {
        self.cmp(other) == Ordering::Equal
    }
}

impl Eq for Ranked {
    ghost laws = { ranked_equiv };
}
