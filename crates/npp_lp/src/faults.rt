//! Why an answer of a linear program is refused.

ghost use Rattle.std.specs.Prelude.{◌≡◌};

use npp_frac::Overflow;

/// Why multipliers are no dual answer of a program: the first fault, rows before columns before the value.
#[derive(Clone, Copy, Debug)]
pub enum DualFault<N> {
    /// The multiplier of this row is below 0.
    NegativeRow(u32),
    /// The sum of this column is below its goal.
    Column(u32),
    /// An operation does not fit the width, in the sum of the column or of the value that would be judged there.
    Overflow(Overflow<N>),
}

/// Why multipliers are no Farkas answer of a program: the first fault, rows before columns before the value.
#[derive(Clone, Copy, Debug)]
pub enum FarkasFault<N> {
    /// The multiplier of this row is below 0.
    NegativeRow(u32),
    /// The sum of this column is below 0.
    Column(u32),
    /// The sum of the right sides is not below 0.
    NotBelowZero,
    /// An operation does not fit the width, in the sum of the column or of the right sides that would be judged there.
    Overflow(Overflow<N>),
}

/// Why a vector is no point of a program: the first fault, columns before rows before the goal.
#[derive(Clone, Copy, Debug)]
pub enum PrimalFault<N> {
    /// The number of this column is below 0.
    NegativeColumn(u32),
    /// This row is above its right side.
    Row(u32),
    /// An operation does not fit the width, in the sum of the row or of the goal that would be judged there.
    Overflow(Overflow<N>),
}

impl<N> From<Overflow<N>> for DualFault<N> {
    ghost use Rattle.npp_lp.specs.declared.faults.DualFault.TheVariants.{Overflow};

    ghost from_gives = { λ overflow fault. fault ≡ Overflow overflow };

    fn from(overflow: Overflow<N>) -> Self {
        DualFault::Overflow(overflow)
    }
}

impl<N> From<Overflow<N>> for FarkasFault<N> {
    ghost use Rattle.npp_lp.specs.declared.faults.FarkasFault.TheVariants.{Overflow};

    ghost from_gives = { λ overflow fault. fault ≡ Overflow overflow };

    fn from(overflow: Overflow<N>) -> Self {
        FarkasFault::Overflow(overflow)
    }
}

impl<N> From<Overflow<N>> for PrimalFault<N> {
    ghost use Rattle.npp_lp.specs.declared.faults.PrimalFault.TheVariants.{Overflow};

    ghost from_gives = { λ overflow fault. fault ≡ Overflow overflow };

    fn from(overflow: Overflow<N>) -> Self {
        PrimalFault::Overflow(overflow)
    }
}
