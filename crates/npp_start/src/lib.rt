//! The travellers' reply to tolls as walks, and the tolls with which a search starts.
#![tactic(auto)]

mod start;
mod walks;

pub use start::{Start, find_start_for};
pub use walks::walks_of_reply;
