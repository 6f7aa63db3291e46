//! Tests of whole runs of the program, on the bytes that are written. They stand apart, so that the program's crate is proved once.
#![tactic(auto)]

#[cfg(test)]
mod check;
#[cfg(test)]
mod eval;
#[cfg(test)]
mod fixtures;
#[cfg(test)]
mod runs;
#[cfg(test)]
mod upgrade;
