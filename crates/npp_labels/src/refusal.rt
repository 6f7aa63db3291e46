//! Why the useful labels are not listed.

use npp_net::Memory;
use std::alloc::{AllocError, AllocFailed};
use thiserror::Error;

/// Why the useful labels of a commodity are not listed.
#[derive(Debug, PartialEq, Eq, Drop, Error)]
pub enum LabelRefusal {
    /// There are over 65,536 of them.
    #[error("over 65,536 useful labels")]
    TooManyLabels,
    /// Memory was wanting.
    #[error("no memory")]
    Memory,
}

impl From<Memory> for LabelRefusal {
    ghost use Rattle.std.specs.Prelude.{◌≡◌};
    ghost use Rattle.npp_labels.specs.declared.refusal.LabelRefusal.TheVariants.{Memory};

    ghost from_gives = { λ _ e. e ≡ Memory };

    fn from(_: Memory) -> Self {
        LabelRefusal::Memory
    }
}

impl From<AllocError> for LabelRefusal {
    ghost use Rattle.std.specs.Prelude.{◌≡◌};
    ghost use Rattle.npp_labels.specs.declared.refusal.LabelRefusal.TheVariants.{Memory};

    ghost from_gives = { λ _ e. e ≡ Memory };

    fn from(_: AllocError) -> Self {
        LabelRefusal::Memory
    }
}

impl<T: Drop> From<AllocFailed<T>> for LabelRefusal {
    ghost use Rattle.std.specs.Prelude.{◌≡◌};
    ghost use Rattle.npp_labels.specs.declared.refusal.LabelRefusal.TheVariants.{Memory};

    ghost from_gives = { λ _ e. e ≡ Memory };

    fn from(_: AllocFailed<T>) -> Self {
        LabelRefusal::Memory
    }
}
