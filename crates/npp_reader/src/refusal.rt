//! Why a text is not read.

ghost use Rattle.std.specs.Prelude.{◌≡◌};
ghost use Rattle.npp_reader.specs.Taking.{refusal_at};

use crate::kind::LineKind;
use npp_net::Memory;
use std::alloc::AllocFailed;
use thiserror::Error;

/// Why there is no document for some bytes.
#[derive(Debug, PartialEq, Eq, Drop, Error)]
pub enum ReadRefusal {
    /// The first faulty line.
    #[error("line {line}: {kind}")]
    Line {
        /// Its number, from 1. The end of the text has the number after the last line's.
        line: u64,
        /// The first kind of fault that it has.
        kind: LineKind,
    },
    /// Memory was wanting.
    #[error("no memory")]
    Memory,
}

/// Why a line is not taken.
#[derive(Debug, PartialEq, Eq, Drop)]
pub(crate) enum Fault {
    Kind(LineKind),
    Memory,
}

impl From<LineKind> for Fault {
    ghost use Rattle.std.specs.Prelude.{◌≡◌};
    ghost use Rattle.npp_reader.specs.declared.refusal.Fault.TheVariants.{Kind};

    ghost from_gives = { λ kind fault. fault ≡ Kind kind };

    fn from(kind: LineKind) -> Self {
        Fault::Kind(kind)
    }
}

impl From<Memory> for Fault {
    ghost use Rattle.std.specs.Prelude.{◌≡◌};
    ghost use Rattle.npp_reader.specs.declared.refusal.Fault.TheVariants.{Memory};

    ghost from_gives = { λ _ fault. fault ≡ Memory };

    fn from(_: Memory) -> Self {
        Fault::Memory
    }
}

impl<T: Drop> From<AllocFailed<T>> for Fault {
    ghost use Rattle.std.specs.Prelude.{◌≡◌};
    ghost use Rattle.npp_reader.specs.declared.refusal.Fault.TheVariants.{Memory};

    ghost from_gives = { λ _ fault. fault ≡ Memory };

    fn from(_: AllocFailed<T>) -> Self {
        Fault::Memory
    }
}

impl Fault {
    /// The fault of the line of this number.
    pub(crate) fn at(self, line: u64) -> ReadRefusal
        ensures { result ≡ refusal_at line self }
    {
        match self {
            Fault::Kind(kind) => ReadRefusal::Line { line, kind },
            Fault::Memory => ReadRefusal::Memory,
        }
    }
}
