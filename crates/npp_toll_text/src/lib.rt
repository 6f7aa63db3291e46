//! The tolls text: a header, and a line for each toll arc with its toll.
#![tactic(auto)]

mod allowed;
mod line;
mod reading;
mod refusal;

pub use reading::read_tolls;
pub use refusal::TollsRefusal;

#[cfg(test)]
mod tests;
