//! Nodes of a tree.

use crate::bound::Bound;
use npp_net::Listed;
use npp_rows::{Mark, Multiplier};

/// What bounds a node beside its parent and the least costs of its paths. Multipliers stand by rising rows, each above
/// 0; a row that is not named has the multiplier 0.
#[derive(Debug, Drop)]
pub enum Evidence<N> {
    /// The node was not opened.
    Unopened,
    /// The node's program has no answer at the width, for this reason.
    Basic(Mark),
    /// A dual answer of the relaxation.
    Dual(Listed<Multiplier<N>>),
    /// A Farkas answer of the relaxation.
    Farkas(Listed<Multiplier<N>>),
    /// A dual answer of the inverse program of a full choice.
    Inverse(Listed<Multiplier<N>>),
    /// A Farkas answer of the inverse program of a full choice.
    NoInverse(Listed<Multiplier<N>>),
}

/// What comes below a node.
#[derive(Debug, Drop)]
pub enum Branch {
    /// Nothing.
    Leaf,
    /// Two children.
    Split {
        /// The commodity whose allowed paths are divided.
        commodity: u32,
        /// The paths that the first child allows it, by rising number. The second child has the rest.
        part: Listed<u32>,
    },
}

/// A node of a certificate.
#[derive(Debug, Drop)]
pub struct CertNode<N> {
    /// What bounds it.
    pub evidence: Evidence<N>,
    /// What comes below it.
    pub branch: Branch,
    /// What no outcome of it exceeds.
    pub bound: Bound,
}

/// The nodes of a tree in preorder: each node stands before its first child with all that is below it, and that before
/// the second.
#[derive(Debug, Drop)]
pub struct CertTree<N> {
    /// The nodes.
    pub nodes: Listed<CertNode<N>>,
}
