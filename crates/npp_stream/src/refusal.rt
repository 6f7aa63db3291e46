//! Why a certificate is not accepted.

use npp_check::{CheckRefusal, Rule, StartRefusal};
use npp_outside::ShelfAnswer;

/// Why the text of a certificate is not accepted.
#[derive(Clone, Copy, Debug, PartialEq, Eq)]
pub enum TextRefusal {
    /// This commodity is the first without a toll-free walk, so no line was judged.
    NoFreePath(u32),
    /// The line, numbered from 1, is the first that breaks a rule, and this is the first rule that it breaks.
    Broken { line: u64, rule: Rule },
    /// Memory was wanting.
    Memory,
}

/// Why the file of a certificate is not accepted.
#[derive(Clone, Copy, Debug, PartialEq, Eq)]
pub enum FileRefusal {
    /// This commodity is the first without a toll-free walk, so the file was not asked for.
    NoFreePath(u32),
    /// The shelf has no such file.
    Missing,
    /// The shelf failed.
    Failed,
    /// The file has more bytes than a certificate may have.
    TooLong,
    /// The line, numbered from 1, is the first that breaks a rule, and this is the first rule that it breaks.
    Broken { line: u64, rule: Rule },
    /// Memory was wanting.
    Memory,
}

impl From<StartRefusal> for TextRefusal {
    ghost use Rattle.std.specs.Prelude.{◌≡◌};
    ghost use Rattle.npp_stream.specs.Refusals.{start_refusal};

    ghost from_gives = { λ refusal e. e ≡ start_refusal refusal };

    fn from(refusal: StartRefusal) -> Self {
        match refusal {
            StartRefusal::NoFreePath(k) => TextRefusal::NoFreePath(k),
            StartRefusal::Memory => TextRefusal::Memory,
        }
    }
}

impl From<CheckRefusal> for TextRefusal {
    ghost use Rattle.std.specs.Prelude.{◌≡◌};
    ghost use Rattle.npp_stream.specs.Refusals.{line_refusal};

    ghost from_gives = { λ refusal e. e ≡ line_refusal refusal };

    fn from(refusal: CheckRefusal) -> Self {
        match refusal {
            CheckRefusal::Broken { line, rule } => TextRefusal::Broken { line, rule },
            CheckRefusal::Memory => TextRefusal::Memory,
        }
    }
}

impl From<StartRefusal> for FileRefusal {
    ghost use Rattle.std.specs.Prelude.{◌≡◌};
    ghost use Rattle.npp_stream.specs.Refusals.{start_refusal, file_refusal};

    ghost from_gives = { λ refusal e. e ≡ file_refusal (start_refusal refusal) };

    fn from(refusal: StartRefusal) -> Self {
        match refusal {
            StartRefusal::NoFreePath(k) => FileRefusal::NoFreePath(k),
            StartRefusal::Memory => FileRefusal::Memory,
        }
    }
}

impl From<CheckRefusal> for FileRefusal {
    ghost use Rattle.std.specs.Prelude.{◌≡◌};
    ghost use Rattle.npp_stream.specs.Refusals.{line_refusal, file_refusal};

    ghost from_gives = { λ refusal e. e ≡ file_refusal (line_refusal refusal) };

    fn from(refusal: CheckRefusal) -> Self {
        match refusal {
            CheckRefusal::Broken { line, rule } => FileRefusal::Broken { line, rule },
            CheckRefusal::Memory => FileRefusal::Memory,
        }
    }
}

impl From<ShelfAnswer> for FileRefusal {
    ghost use Rattle.std.specs.Prelude.{◌≡◌};
    ghost use Rattle.npp_stream.specs.Refusals.{shelf_refusal};

    ghost from_gives = { λ answer e. e ≡ shelf_refusal answer };

    fn from(answer: ShelfAnswer) -> Self {
        match answer {
            ShelfAnswer::Missing => FileRefusal::Missing,
            ShelfAnswer::Failed => FileRefusal::Failed,
        }
    }
}
