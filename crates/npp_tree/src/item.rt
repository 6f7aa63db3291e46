//! The lines of a certificate as items.

use crate::outcome::Status;
use npp_net::{ArcId, Listed};
use npp_rows::{Mark, Multiplier};

/// One line of a certificate. Each list has fewer than 2^32 entries.
#[derive(Debug, Drop)]
pub enum Item<N> {
    /// The first line of a certificate in the first form, which is for at most 64 toll arcs.
    Header,
    /// The first line of a certificate in the second form, which names the instance.
    HeaderTwo,
    /// How the search ended.
    StatusIs(Status),
    /// The width of its numbers in bits. No rule speaks of it.
    Width(u32),
    /// The lower value.
    Lower(N),
    /// The upper value.
    Upper(N),
    /// How many nodes were opened.
    Opened(u32),
    /// The sizes of the instance, in the second form.
    InstanceIs {
        /// How many nodes there are.
        nodes: u32,
        /// How many arcs there are.
        arcs: u32,
        /// How many of them are toll arcs.
        tolls: u32,
        /// How many commodities there are.
        commodities: u32,
    },
    /// The ceiling of a toll arc, in the second form.
    Limit {
        /// The toll number.
        toll: u32,
        /// The ceiling, or None where there is none.
        ceiling: Option<u32>,
    },
    /// The toll of a toll arc.
    Toll {
        /// The toll number.
        toll: u32,
        /// The toll.
        value: N,
    },
    /// The walk of a commodity.
    Path {
        /// The commodity.
        commodity: u32,
        /// Its cost.
        cost: u64,
        /// The toll that it pays.
        paid: N,
        /// Its arcs in the order of travel.
        arcs: Listed<ArcId>,
    },
    /// The head of a cover.
    Cover {
        /// The commodity.
        commodity: u32,
        /// How many labels follow.
        labels: u32,
    },
    /// The start, which is the first label.
    Start,
    /// A further label.
    Step {
        /// The label that it goes on from, by its number.
        parent: u32,
        /// The arc by which it goes on.
        arc: ArcId,
    },
    /// The toll-free walk of a cover.
    Free {
        /// Its arcs in the order of travel.
        arcs: Listed<ArcId>,
    },
    /// How many cuts follow.
    Cuts(u32),
    /// A cut: no tolls make path `p` of commodity `k` and path `q` of commodity `l` cheapest at once.
    Conflict {
        /// The lower commodity.
        k: u32,
        /// Its path.
        p: u32,
        /// The higher commodity.
        l: u32,
        /// Its path.
        q: u32,
        /// How many multipliers follow.
        lines: u32,
    },
    /// A cut: path `p` of commodity `k` is in conflict with each of some paths of commodity `l`.
    Pair {
        /// The commodity of the one path.
        k: u32,
        /// The path.
        p: u32,
        /// The commodity of the others.
        l: u32,
        /// The earlier cuts that say so.
        cuts: Listed<u32>,
    },
    /// A cut: a combination of rows, rounded down.
    Round {
        /// How many multipliers follow.
        lines: u32,
    },
    /// A multiplier of a cut or of a node's evidence.
    Mult(Multiplier<N>),
    /// The head of the tree.
    Tree,
    /// A node that was not opened.
    Open,
    /// A node whose program has no answer at the width.
    Basic(Mark),
    /// A node with a dual answer of so many multipliers.
    Dual(u32),
    /// A node with a Farkas answer of so many multipliers.
    Farkas(u32),
    /// A full choice with a dual answer of so many multipliers.
    Inverse(u32),
    /// A full choice with a Farkas answer of so many multipliers.
    NoInverse(u32),
    /// An opened node goes on no further.
    Leaf,
    /// An opened node is split.
    Split {
        /// The commodity whose allowed paths are divided.
        commodity: u32,
        /// The paths that the first child allows it.
        part: Listed<u32>,
    },
    /// The last line.
    End,
}
