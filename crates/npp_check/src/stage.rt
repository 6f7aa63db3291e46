//! Where a checker stands between two lines.

use crate::block::{CutBlock, NodeBlock};
use crate::descent::Descent;
use crate::known::{Head, Known, OpenCover, Printed};
use npp_cover::Cover;
use npp_tree::{Bound, PathLine, Status};

/// Which line comes next, with what the lines above it leave to be known. The second form of a certificate names the
/// instance. A stage is moved at each line: what is large stands in a box.
#[derive(Drop)]
pub enum Stage<N> {
    /// The first line.
    Header,
    /// How the search ended.
    Status {
        /// Whether the certificate is in the second form.
        two: bool,
    },
    /// The width.
    Width {
        /// Whether the certificate is in the second form.
        two: bool,
        /// How the search ended.
        status: Status,
    },
    /// The lower value.
    Lower {
        /// Whether the certificate is in the second form.
        two: bool,
        /// How the search ended.
        status: Status,
    },
    /// The upper value.
    Upper {
        /// Whether the certificate is in the second form.
        two: bool,
        /// How the search ended.
        status: Status,
        /// The lower value.
        lower: N,
    },
    /// The number of opened nodes.
    Opened {
        /// Whether the certificate is in the second form.
        two: bool,
        /// What the head says above this line.
        head: Box<Head<N>>,
    },
    /// The sizes of the instance.
    Instance {
        /// What the head says.
        head: Box<Head<N>>,
    },
    /// A ceiling.
    Limits {
        /// What the head says.
        head: Box<Head<N>>,
        /// How many ceilings stand above.
        taken: u32,
    },
    /// A toll.
    Tolls {
        /// What the head says.
        head: Box<Head<N>>,
        /// The tolls above.
        tolls: Vec<N>,
    },
    /// A walk.
    Paths {
        /// What the head says.
        head: Box<Head<N>>,
        /// The tolls.
        tolls: Vec<N>,
        /// The walks above.
        paths: Vec<PathLine<N>>,
    },
    /// The head of a cover, or the number of cuts where all covers stand.
    Covers {
        /// What stands above the covers.
        printed: Box<Printed<N>>,
        /// The covers above.
        covers: Vec<Cover>,
    },
    /// A label of a cover, or its toll-free walk where all its labels stand.
    Labels {
        /// What stands above the covers.
        printed: Box<Printed<N>>,
        /// The cover, with those above it.
        cover: Box<OpenCover>,
    },
    /// A cut, or the head of the tree where all cuts stand.
    Cuts {
        /// What stands above.
        known: Box<Known<N>>,
        /// How many cuts are still to come.
        left: u32,
    },
    /// A multiplier of a cut.
    CutMultipliers {
        /// How many cuts are still to come behind the cut.
        left: u32,
        /// What stands above it.
        known: Box<Known<N>>,
        /// The cut.
        block: CutBlock<N>,
    },
    /// A node.
    Nodes(Box<Descent<N>>),
    /// A multiplier of the first node's evidence.
    Multipliers {
        /// The tree.
        descent: Box<Descent<N>>,
        /// The evidence.
        block: NodeBlock<N>,
    },
    /// The line behind the evidence of the first node.
    Branch {
        /// The tree.
        descent: Box<Descent<N>>,
        /// The bound of the node.
        bound: Bound,
    },
    /// The last line. No node of the tree is still to come.
    End(Box<Descent<N>>),
    /// Nothing: the last line stands above.
    Behind(Box<Descent<N>>),
}
