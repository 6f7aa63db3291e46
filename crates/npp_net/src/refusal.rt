//! The refusals of an instance.

use std::alloc::{AllocError, AllocFailed};
use thiserror::Error;

/// Why there is no instance of some nodes, arcs and commodities, in the order in which the limits are judged.
#[derive(Debug, PartialEq, Eq, Drop, Error)]
pub enum NetRefusal {
    /// There are over 1,000 nodes.
    #[error("too many nodes")]
    TooManyNodes,
    /// There are over 5,000 arcs.
    #[error("too many arcs")]
    TooManyArcs,
    /// There are over 128 toll arcs.
    #[error("too many toll arcs")]
    TooManyTolls,
    /// There are over 100 commodities.
    #[error("too many commodities")]
    TooManyCommodities,
    /// An end of an arc or of a commodity is no node.
    #[error("an unknown node")]
    UnknownNode,
    /// A cost or a demand is over 1,000,000, or a ceiling over 1,000,000,000.
    #[error("a number that is too large")]
    NumberTooLarge,
    /// A commodity ends where it begins.
    #[error("the same node at both ends")]
    SameEnds,
    /// A commodity has no travellers.
    #[error("a demand of zero")]
    ZeroDemand,
    /// There is no commodity.
    #[error("no commodity")]
    NoCommodity,
    /// Memory was wanting.
    #[error("no memory")]
    Memory,
    /// A toll-free arc has a ceiling.
    #[error("a ceiling on a toll-free arc")]
    CeilingOnFree,
}

impl From<AllocError> for NetRefusal {
    ghost use Rattle.std.specs.Prelude.{◌≡◌};
    ghost use Rattle.npp_net.specs.declared.refusal.NetRefusal.TheVariants.{Memory};

    ghost from_gives = { λ _ e. e ≡ Memory };

    fn from(_: AllocError) -> Self {
        NetRefusal::Memory
    }
}

impl<T: Drop> From<AllocFailed<T>> for NetRefusal {
    ghost use Rattle.std.specs.Prelude.{◌≡◌};
    ghost use Rattle.npp_net.specs.declared.refusal.NetRefusal.TheVariants.{Memory};

    ghost from_gives = { λ _ e. e ≡ Memory };

    fn from(_: AllocFailed<T>) -> Self {
        NetRefusal::Memory
    }
}
