//! The parts of a network pricing problem, by their numbers.

use std::alloc::{AllocError, AllocFailed};

/// Want of memory.
#[derive(Clone, Copy, Debug, PartialEq, Eq)]
pub struct Memory;

impl From<AllocError> for Memory {
    fn from(_: AllocError) -> Self {
        Memory
    }
}

impl<T: Drop> From<AllocFailed<T>> for Memory {
    fn from(_: AllocFailed<T>) -> Self {
        Memory
    }
}

/// The number of a node, from 0 in the order of the instance.
#[derive(Clone, Copy, Debug, PartialEq, Eq)]
pub struct NodeId(pub u32);

/// The number of an arc, from 0 in the order of the instance, toll arcs and toll-free arcs together.
#[derive(Clone, Copy, Debug, PartialEq, Eq)]
pub struct ArcId(pub u32);

/// The number of a toll arc among the toll arcs, from 0 in the order of the instance.
#[derive(Clone, Copy, Debug, PartialEq, Eq)]
pub struct TollId(pub u32);

/// An arc of the network. Parallel arcs are allowed, and arcs whose two ends are the same node.
#[derive(Clone, Copy, Debug, PartialEq, Eq)]
pub struct NetArc {
    /// Where it begins.
    pub tail: NodeId,
    /// Where it ends.
    pub head: NodeId,
    /// What each use of it costs apart from its toll, from 0 to 1,000,000.
    pub cost: u32,
    /// Whether the leader sets a toll on it.
    pub toll: bool,
    /// The greatest toll that the leader may set, from 0 to 1,000,000,000, or None where there is no such limit. A
    /// toll-free arc has none.
    pub ceiling: Option<u32>,
}

/// Travellers from one node to another who all take the same walk.
#[derive(Clone, Copy, Debug, PartialEq, Eq)]
pub struct Commodity {
    /// Where they begin.
    pub origin: NodeId,
    /// Where they end, another node.
    pub destination: NodeId,
    /// How many they are, from 1 to 1,000,000.
    pub demand: u32,
}

/// What bounds the toll that one traveller of a commodity can pay: the difference of the two costs.
#[derive(Clone, Copy, Debug, PartialEq, Eq)]
pub struct Span {
    /// The least cost of a toll-free walk.
    pub free: u64,
    /// The least cost of any walk where all tolls are zero.
    pub zero: u64,
}

/// A list of arcs, each of which begins where the one before it ended.
#[derive(Debug, PartialEq, Eq, Drop)]
pub struct Walk {
    /// The arcs in the order of travel.
    pub arcs: Vec<ArcId>,
}
