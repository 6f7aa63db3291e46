//! The kinds of faults that a line may have.

ghost use Rattle.std.specs.Prelude.{◌≡◌};
ghost use Rattle.npp_reader.specs.Kind.{kind_word};

use thiserror::Error;

/// What is wrong with a line, in the order in which a line is judged.
#[derive(Clone, Copy, Debug, PartialEq, Eq, Error)]
pub enum LineKind {
    /// The line is not UTF-8.
    #[error("Utf8")]
    Utf8,
    /// The first line that is not skipped is neither `npp 1` nor `npp 2`, or every line is skipped.
    #[error("Header")]
    Header,
    /// The first field is none of `node`, `free`, `toll` and `pair`.
    #[error("UnknownWord")]
    UnknownWord,
    /// The number of fields is not that of the word, or for `toll` not that of the format.
    #[error("FieldCount")]
    FieldCount,
    /// The field of a name is none: it has not 1 to 32 bytes, or not all are letters, digits, `_`, `-` and `.`.
    #[error("BadName")]
    BadName,
    /// The field of a number is none: it has not 1 to 18 bytes, or not all are decimal digits. The field of a ceiling may
    /// also be `-`.
    #[error("BadNumber")]
    BadNumber,
    /// A cost or a demand is over 1,000,000, or a ceiling is over 1,000,000,000.
    #[error("NumberTooLarge")]
    NumberTooLarge,
    /// A node is declared whose name is declared above.
    #[error("RepeatedNode")]
    RepeatedNode,
    /// A name is used that is not declared above.
    #[error("UnknownNode")]
    UnknownNode,
    /// A commodity ends where it begins.
    #[error("SameEnds")]
    SameEnds,
    /// A commodity has no travellers.
    #[error("ZeroDemand")]
    ZeroDemand,
    /// It would be the 1,001st node.
    #[error("TooManyNodes")]
    TooManyNodes,
    /// It would be the 5,001st arc.
    #[error("TooManyArcs")]
    TooManyArcs,
    /// It would be the 129th toll arc.
    #[error("TooManyTolls")]
    TooManyTolls,
    /// It would be the 101st commodity.
    #[error("TooManyCommodities")]
    TooManyCommodities,
    /// The text ends and has declared no commodity.
    #[error("NoCommodity")]
    NoCommodity,
}

impl LineKind {
    /// The name of the kind, as refusals print it.
    pub fn word(self) -> &'static str
        ensures { result.now ≡ kind_word self }
    {
        match self {
            LineKind::Utf8 => "Utf8",
            LineKind::Header => "Header",
            LineKind::UnknownWord => "UnknownWord",
            LineKind::FieldCount => "FieldCount",
            LineKind::BadName => "BadName",
            LineKind::BadNumber => "BadNumber",
            LineKind::NumberTooLarge => "NumberTooLarge",
            LineKind::RepeatedNode => "RepeatedNode",
            LineKind::UnknownNode => "UnknownNode",
            LineKind::SameEnds => "SameEnds",
            LineKind::ZeroDemand => "ZeroDemand",
            LineKind::TooManyNodes => "TooManyNodes",
            LineKind::TooManyArcs => "TooManyArcs",
            LineKind::TooManyTolls => "TooManyTolls",
            LineKind::TooManyCommodities => "TooManyCommodities",
            LineKind::NoCommodity => "NoCommodity",
        }
    }
}
