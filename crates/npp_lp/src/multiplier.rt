//! Multipliers that name their rows.

/// The multiplier of a row.
#[derive(Clone, Copy, Debug)]
pub struct RowMultiplier<N> {
    /// The row, numbered from 0.
    pub row: u32,
    /// The multiplier.
    pub value: N,
}
