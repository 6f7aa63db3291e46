//! Tests of the check of certificates as text: the same answer however the bytes come, and each line judged before more
//! of them are asked for. They stand apart, so that the crate of the check is proved once.
#![tactic(auto)]

#[cfg(test)]
mod changes;
#[cfg(test)]
mod pieces;
#[cfg(test)]
mod rows;
#[cfg(test)]
mod slow_shelf;
#[cfg(test)]
mod texts;
