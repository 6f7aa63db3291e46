//! What may be wrong with a cover draft.

use npp_net::{ArcId, Memory};
use std::alloc::{AllocError, AllocFailed};

/// Why a draft is no cover, in the order in which the rules are judged.
#[derive(Clone, Copy, Debug, PartialEq, Eq)]
pub enum CoverFault {
    /// There are over 65,536 labels, the start included.
    TooManyLabels,
    /// The label of this number continues no label of lower number by an arc from its node.
    NotAStep(u32),
    /// The label of this number uses a toll arc twice.
    RepeatedToll(u32),
    /// No walk on from the label of this number costs less in all than the toll-free walk.
    Useless(u32),
    /// The free walk is no toll-free walk of least cost of the commodity.
    BadFree,
    /// There is no start although some walk costs less than the toll-free walk where all tolls are zero.
    MissingOrigin,
    /// The extension of this label by this arc may still win, and no label at the arc's head dominates it.
    NotClosed(u32, ArcId),
    /// Memory was wanting.
    Memory,
}

impl From<AllocError> for CoverFault {
    ghost use Rattle.std.specs.Prelude.{◌≡◌};
    ghost use Rattle.npp_cover.specs.declared.fault.CoverFault.TheVariants.{Memory};

    ghost from_gives = { λ _ e. e ≡ Memory };

    fn from(_: AllocError) -> Self {
        CoverFault::Memory
    }
}

impl<T: Drop> From<AllocFailed<T>> for CoverFault {
    ghost use Rattle.std.specs.Prelude.{◌≡◌};
    ghost use Rattle.npp_cover.specs.declared.fault.CoverFault.TheVariants.{Memory};

    ghost from_gives = { λ _ e. e ≡ Memory };

    fn from(_: AllocFailed<T>) -> Self {
        CoverFault::Memory
    }
}

impl From<npp_net::Memory> for CoverFault {
    ghost use Rattle.std.specs.Prelude.{◌≡◌};
    ghost use Rattle.npp_cover.specs.declared.fault.CoverFault.TheVariants.{Memory};

    ghost from_gives = { λ _ e. e ≡ Memory };

    fn from(_: Memory) -> Self {
        CoverFault::Memory
    }
}
