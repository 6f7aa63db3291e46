//! Tests of shelves and sinks. They stand apart, so that the crate of these is proved once.
#![tactic(auto)]

#[cfg(test)]
mod outside;
