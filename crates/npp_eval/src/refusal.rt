//! Why tolls are not evaluated.

use npp_net::Memory;

/// Why it is not said what tolls earn, in the order in which the causes are judged.
#[derive(Clone, Copy, Debug, PartialEq, Eq)]
pub enum EvalRefusal {
    /// Of tolls that come as a text: the first line that is not the line that must stand there, by its number from 1.
    Line(u32),
    /// This is the first commodity that has no toll-free walk.
    NoFreePath(u32),
    /// This is the first commodity at which a limit is passed, and it has over 65,536 useful labels.
    TooManyLabels(u32),
    /// This is the first commodity at which a limit is passed, its labels are few enough, and the useful paths up to it are
    /// over 2,000.
    TooManyPaths(u32),
    /// This is the first commodity of which a sum or product of the reply does not fit the width.
    Overflow(u32),
    /// Memory was wanting.
    Memory,
}

impl From<Memory> for EvalRefusal {
    ghost use Rattle.std.specs.Prelude.{◌≡◌};
    ghost use Rattle.npp_eval.specs.declared.refusal.EvalRefusal.TheVariants as refusal;

    ghost from_gives = { λ _ e. e ≡ refusal.Memory };

    fn from(_: Memory) -> Self {
        EvalRefusal::Memory
    }
}
