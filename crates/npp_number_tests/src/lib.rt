//! Tests of the crates on fractions, programs and the simplex. They stand apart, so that each of these crates is proved once.
#![tactic(auto)]

#[cfg(test)]
mod frac;
#[cfg(test)]
mod lp;
#[cfg(test)]
mod numbers;
#[cfg(test)]
mod simplex;
