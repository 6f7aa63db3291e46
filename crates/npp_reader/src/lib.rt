//! The text of an instance: reading it line by line, and printing it in its canonical form.
#![tactic(auto)]

mod document;
mod draft;
mod field;
mod format;
mod kind;
mod line;
mod link;
mod names;
mod printing;
mod reading;
mod refusal;

pub use document::Document;
pub use kind::LineKind;
pub use names::Names;
pub use printing::print;
pub use reading::read;
pub use refusal::ReadRefusal;
