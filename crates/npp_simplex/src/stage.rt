//! The stages of a run.

/// Where a run stands.
#[derive(Clone, Copy, PartialEq, Eq, Debug)]
pub enum Stage {
    /// Before the first pivot of phase one, which brings the extra variable into the basis.
    Entry,
    /// In phase one, which makes the extra variable as small as it can be.
    PhaseOne,
    /// In phase two, which raises the goal of the program.
    PhaseTwo,
}

/// The column that enters the basis, and the stage in which it does.
#[derive(Clone, Copy, Debug)]
pub struct EnteringColumn {
    /// The stage.
    pub stage: Stage,
    /// The column.
    pub column: usize,
}
