//! What given tolls earn, and the walks that travellers take under them.
#![tactic(auto)]

mod evaluating;
mod evaluation;
mod refusal;
mod text;

pub use evaluating::{evaluate, evaluate_text};
pub use evaluation::Evaluation;
pub use refusal::EvalRefusal;
pub use text::evaluation_text;
