//! The check of a certificate: that its lower value is earned, and that no outcome earns more than its upper value.
#![tactic(auto)]

mod block;
mod branch_steps;
mod changes;
mod checker;
mod cover_steps;
mod cut_steps;
mod cuts_line;
mod descent;
mod division;
mod head;
mod head_steps;
mod known;
mod later;
mod line_steps;
mod measured;
mod node_proof;
mod node_rows;
mod node_steps;
mod openings;
mod paths;
mod places;
mod prices;
mod refusal;
mod root_step;
mod stage;
mod step;
mod stop;
mod sums;
mod tolls;

pub use checker::{Checker, check};
pub use refusal::{CheckRefusal, CheckedRefusal, Rule, StartRefusal};
