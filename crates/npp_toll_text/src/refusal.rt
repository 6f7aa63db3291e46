//! Why a tolls text is not read.

use std::alloc::AllocFailed;

/// Why there are no tolls for some bytes.
#[derive(Clone, Copy, Debug, PartialEq, Eq)]
pub enum TollsRefusal {
    /// The first line that is not the line that must stand there, by its number from 1; or the line after the last, where
    /// one is missing.
    Line(u32),
    /// Memory was wanting.
    Memory,
}

impl<T: Drop> From<AllocFailed<T>> for TollsRefusal {
    ghost use Rattle.std.specs.Prelude.{◌≡◌};
    ghost use Rattle.npp_toll_text.specs.declared.refusal.TollsRefusal.TheVariants.{Memory};

    ghost from_gives = { λ _ e. e ≡ Memory };

    fn from(_: AllocFailed<T>) -> Self {
        TollsRefusal::Memory
    }
}
