//! Tests of the text of certificates. They stand apart, so that the crate of the text is proved once.
#![tactic(auto)]

#[cfg(test)]
mod lines;
