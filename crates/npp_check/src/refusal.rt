//! Why a certificate is refused.

use npp_cover::CoverFault;

/// What a line breaks.
#[derive(Clone, Copy, Debug, PartialEq, Eq)]
pub enum Rule {
    /// The line is in no form of a certificate.
    Text,
    /// The line is not the one that must stand there.
    Order,
    /// A toll is negative or above the ceiling of its arc.
    Tolls,
    /// A walk is none, does not cost or pay what is said, or is not cheapest.
    Path,
    /// The label or the free walk has this fault.
    Cover(CoverFault),
    /// There are over 2,000 useful paths.
    TooManyPaths,
    /// The lower value is not what the walks earn.
    Lower,
    /// A cut does not follow, or there are over 1,000.
    Cut,
    /// A node may not be split so.
    Split,
    /// The multipliers prove nothing of the node's program.
    Evidence,
    /// The number of opened nodes is not that of the tree.
    Opened,
    /// The upper value is not the bound of the tree.
    Upper,
    /// The status does not agree with the two values.
    Status,
    /// A number does not fit the width.
    Overflow,
    /// The line does not agree with the instance.
    Instance,
}

/// The first broken line and its first broken rule, or want of memory.
#[derive(Clone, Copy, Debug, PartialEq, Eq)]
pub enum CheckRefusal {
    /// The line, numbered from 1, breaks the rule.
    Broken { line: u64, rule: Rule },
    /// Memory was wanting.
    Memory,
}

/// Why no certificate can be checked.
#[derive(Clone, Copy, Debug, PartialEq, Eq)]
pub enum StartRefusal {
    /// This commodity is the first without a toll-free walk.
    NoFreePath(u32),
    /// Memory was wanting.
    Memory,
}

/// Why a list of items is not accepted.
#[derive(Clone, Copy, Debug, PartialEq, Eq)]
pub enum CheckedRefusal {
    /// The check did not start.
    Start(StartRefusal),
    /// The items are refused.
    Check(CheckRefusal),
}
