//! Blocks of multipliers under way.

use npp_rows::{Mark, Multiplier};

/// Which cut is derived by the multipliers of a block.
#[derive(Clone, Copy, Debug)]
pub enum CutKind {
    /// Path `p` of commodity `k` and path `q` of commodity `l` are not cheapest at once.
    Conflict {
        /// The lower commodity.
        k: u32,
        /// Its path.
        p: u32,
        /// The higher commodity.
        l: u32,
        /// Its path.
        q: u32,
    },
    /// A combination of rows, rounded down.
    Round,
}

/// The multipliers of a cut under way.
#[derive(Drop)]
pub struct CutBlock<N> {
    /// Which cut it is.
    pub kind: CutKind,
    /// How many multipliers are still to come.
    pub lines: u32,
    /// Those above the next line.
    pub multipliers: Vec<Multiplier<N>>,
}

/// Which answer of its program the multipliers of a node's evidence are to be: of the relaxation, or of the inverse program
/// of a full choice.
#[derive(Clone, Copy, Debug)]
pub enum Answer {
    /// A dual answer of the relaxation.
    OfDual,
    /// A Farkas answer of the relaxation.
    OfFarkas,
    /// A dual answer of the inverse program.
    OfInverse,
    /// A Farkas answer of the inverse program.
    OfNoInverse,
}

/// How a node begins.
#[derive(Clone, Copy, Debug)]
pub enum Opening {
    /// It was not opened.
    NotOpened,
    /// It has a mark in place of an answer.
    Marked(Mark),
    /// It has an answer of so many multipliers.
    Answered(Answer, u32),
}

/// The multipliers of a node's evidence under way.
#[derive(Drop)]
pub struct NodeBlock<N> {
    /// Which answer they are to be.
    pub answer: Answer,
    /// How many are still to come.
    pub left: u32,
    /// Those above the next line.
    pub multipliers: Vec<Multiplier<N>>,
}
