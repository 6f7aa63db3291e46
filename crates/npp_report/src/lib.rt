//! The text of a report: tolls, a walk for each commodity, what they earn, and what bounds all that can be earned.
//!
//! Each line is that of an item of a certificate, so a report is the beginning of a certificate's text.
#![tactic(auto)]

mod head;
mod lines;
mod report;

pub use head::{header, names_instance, write_instance};
pub use lines::{write_arcs, write_fraction, write_paths, write_tolls};
pub use report::{Report, report_text};

#[cfg(test)]
mod tests;
