//! Tests of the crates on networks and covers. They stand apart, so that each of these crates is proved once.
#![tactic(auto)]

#[cfg(test)]
mod bounds;
#[cfg(test)]
mod cover;
#[cfg(test)]
mod labels;
#[cfg(test)]
mod net;
#[cfg(test)]
mod network;
#[cfg(test)]
mod reader;
#[cfg(test)]
mod short;
