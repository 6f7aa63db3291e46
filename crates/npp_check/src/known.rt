//! What stands above a line.

ghost use Rattle.std.specs.Prelude.{◌≡◌, length};

use npp_cover::{Cover, GrowingDraft};
use npp_rows::CutRow;
use npp_tree::{PathLine, Status};

/// What the head says.
#[derive(Clone, Copy, Debug)]
pub struct Head<N> {
    /// How the search ended.
    pub status: Status,
    /// The lower value.
    pub lower: N,
    /// The upper value.
    pub upper: N,
    /// How many nodes were opened.
    pub opened: u32,
}

/// What stands above the covers.
#[derive(Drop)]
pub struct Printed<N> {
    /// What the head says.
    pub head: Head<N>,
    /// The tolls.
    pub tolls: Vec<N>,
    /// The walks.
    pub paths: Vec<PathLine<N>>,
}

/// A cover under way.
#[derive(Drop)]
pub struct OpenCover {
    /// The covers above it.
    pub covers: Vec<Cover>,
    /// Its labels above the next line.
    pub draft: GrowingDraft,
    /// How many they are.
    pub taken: u32,
    /// How many are still to come.
    pub left: u32,
    ghost counted: { taken ≡ length draft.labels },
}

/// What stands above a cut or a node, as far as the lines below depend on it.
#[derive(Drop)]
pub struct Known<N> {
    /// What the head says.
    pub head: Head<N>,
    /// The covers.
    pub covers: Vec<Cover>,
    /// The cuts.
    pub cuts: Vec<CutRow<N>>,
}
