//! The program: the words of the command line in, a text and a status out, over any shelf and any sink.
#![tactic(auto)]

mod answers;
mod certificate;
mod check;
mod eval;
mod generator;
mod paths;
mod program;
mod solve;
mod spans;
mod take;
mod upgrade;
mod words;

pub use generator::generate;
pub use program::run;
