//! Labels, and the draft from which a cover is checked.

ghost use Rattle.std.specs.Prelude.{◌≡◌, ◌<◌, length};
ghost use Rattle.npp_cover.specs.Labels.{label_at};

use npp_net::{ArcId, NodeId, TollSet, Walk};

/// A walk from the origin of a commodity, written as its last arc after the walk of a label of lower number.
#[derive(Clone, Copy, Debug, PartialEq, Eq)]
pub struct Label {
    /// The node where the walk ends.
    pub node: NodeId,
    /// The toll arcs of the walk, none of which it uses twice.
    pub tolls: TollSet,
    /// The sum of the costs of its arcs, without tolls.
    pub cost: u64,
    /// The last arc of the walk, or None at the start, whose walk has no arc.
    pub last: Option<ArcId>,
    /// The number of the label whose walk this one continues, or 0 at the start.
    pub parent: u32,
}

/// One more label of a draft: an arc after the walk of a label of lower number.
#[derive(Clone, Copy, Debug, PartialEq, Eq)]
pub struct StepDraft {
    /// The number of the label whose walk is continued.
    pub parent: u32,
    /// The arc by which it is continued.
    pub arc: ArcId,
}

/// What a cover is checked from. Label 0 is the start; each step gives one more label, in order.
#[derive(Debug, PartialEq, Eq, Drop)]
pub struct CoverDraft {
    /// Whether there is a start: the origin with no toll and no cost.
    pub started: bool,
    /// The labels after the start, by their last arcs.
    pub steps: Vec<StepDraft>,
    /// A toll-free walk of least cost.
    pub free: Walk,
}

/// The label of this number.
pub(crate) fn label_at(labels: &[Label], number: u32) -> Label
    requires { number < length labels.now }
    ensures { result ≡ label_at labels.now number }
{
    labels[number as usize]
}
