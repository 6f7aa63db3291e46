//! Why there is no reply.

use npp_net::Memory;
use std::alloc::AllocFailed;

/// Why a reply is not given.
#[derive(Clone, Copy, Debug, PartialEq, Eq)]
pub enum RespondRefusal {
    /// A sum or product of the reply of this commodity, the first of which one does not, does not fit the width.
    Overflow {
        /// The number of the commodity.
        commodity: u32,
    },
    /// Memory was wanting.
    Memory,
}

impl<T: Drop> From<AllocFailed<T>> for RespondRefusal {
    ghost use Rattle.std.specs.Prelude.{◌≡◌};
    ghost use Rattle.npp_inverse.specs.declared.refusal.RespondRefusal.TheVariants.{Memory};

    ghost from_gives = { λ _ e. e ≡ Memory };

    fn from(_: AllocFailed<T>) -> Self {
        RespondRefusal::Memory
    }
}

impl From<Memory> for RespondRefusal {
    ghost use Rattle.std.specs.Prelude.{◌≡◌};
    ghost use Rattle.npp_inverse.specs.declared.refusal.RespondRefusal.TheVariants.{Memory};

    ghost from_gives = { λ _ e. e ≡ Memory };

    fn from(_: Memory) -> Self {
        RespondRefusal::Memory
    }
}
