//! Why a program is not made.

use npp_net::Memory;

/// Why a relaxation is not made.
#[derive(Clone, Copy, Debug, PartialEq, Eq)]
pub enum RelaxRefusal {
    /// Its rows times its columns are over 1,000,000.
    Large,
    /// Memory was wanting.
    Memory,
}

impl From<Memory> for RelaxRefusal {
    ghost use Rattle.std.specs.Prelude.{◌≡◌};
    ghost use Rattle.npp_rows.specs.declared.refusal.RelaxRefusal.TheVariants.{Memory};

    ghost from_gives = { λ _ e. e ≡ Memory };

    fn from(_: Memory) -> Self {
        RelaxRefusal::Memory
    }
}
