//! Linear programs over exact fractions, and checks of their answers.
//!
//! A check reads a program and an answer and forms each sum exactly, or says which operation does not fit the width.
//! What it accepts is proved of the program over all rational numbers: a bound, that there is no point, or a point.
#![tactic(auto)]

mod builder;
mod dual;
mod farkas;
mod faults;
mod lists;
mod multiplier;
mod numbers;
mod primal;
mod program;
mod running;
mod sparse;
mod sums;

pub use builder::ProgramBuilder;
pub use dual::check_dual;
pub use farkas::check_farkas;
pub use faults::{DualFault, FarkasFault, PrimalFault};
pub use lists::ProgramLists;
pub use multiplier::RowMultiplier;
pub use numbers::first_negative;
pub use primal::check_primal;
pub use program::{Entry, Program};
pub use running::RunningSums;
pub use sparse::{check_sparse_dual, check_sparse_farkas};
pub use sums::coefficient_at;
