//! Why a multiplier of a named row is refused.

use npp_net::Memory;

/// Why a multiplier cannot follow those before it: the first that holds.
#[derive(Clone, Copy, Debug, PartialEq, Eq)]
pub enum MultiplierFault {
    /// The program has no such row.
    NoSuchRow,
    /// The row does not stand behind the row before it.
    NotAfter,
    /// The multiplier is not above 0.
    NotPositive,
    /// Memory was wanting.
    Memory,
}

impl From<Memory> for MultiplierFault {
    ghost use Rattle.std.specs.Prelude.{◌≡◌};
    ghost use Rattle.npp_rows.specs.declared.multiplier_fault.MultiplierFault.TheVariants.{Memory};

    ghost from_gives = { λ _ e. e ≡ Memory };

    fn from(_: Memory) -> Self {
        MultiplierFault::Memory
    }
}
