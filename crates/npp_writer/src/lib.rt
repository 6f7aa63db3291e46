//! The text of an outcome, written to a sink: a certificate, or its report alone.
//!
//! The lines are gathered in one text, which is handed to the sink when it has over 65,536 bytes. So no more of a
//! certificate is held than that and the lines of one cover, one cut or one node.
#![tactic(auto)]

mod covers;
mod cuts;
mod gathered;
mod head;
mod lines;
mod tree;
mod writer;

pub use writer::write_certificate;
