//! Why an instance has no bounds.

use npp_net::Memory;
use std::alloc::AllocFailed;
use thiserror::Error;

/// Why there are no least costs.
#[derive(Clone, Copy, Debug, PartialEq, Eq, Error)]
pub enum BoundsRefusal {
    /// The commodity of this number is the first that has no toll-free walk.
    #[error("no toll-free walk for commodity {0}")]
    NoFreePath(u32),
    /// Memory was wanting.
    #[error("no memory")]
    Memory,
}

impl From<Memory> for BoundsRefusal {
    ghost use Rattle.std.specs.Prelude.{◌≡◌};
    ghost use Rattle.npp_bounds.specs.declared.refusal.BoundsRefusal.TheVariants.{Memory};

    ghost from_gives = { λ _ e. e ≡ Memory };

    fn from(_: npp_net::Memory) -> Self {
        BoundsRefusal::Memory
    }
}

impl<T: Drop> From<AllocFailed<T>> for BoundsRefusal {
    ghost use Rattle.std.specs.Prelude.{◌≡◌};
    ghost use Rattle.npp_bounds.specs.declared.refusal.BoundsRefusal.TheVariants.{Memory};

    ghost from_gives = { λ _ e. e ≡ Memory };

    fn from(_: AllocFailed<T>) -> Self {
        BoundsRefusal::Memory
    }
}
