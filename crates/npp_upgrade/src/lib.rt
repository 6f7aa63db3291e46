//! A certificate of the first form, in the second form, which names the instance.
#![tactic(auto)]

mod instance;
mod laws;
mod splice;
mod text;

pub use laws::upgraded_certificates_are_accepted;
pub use text::upgrade;
