//! The lexicographic simplex over exact fractions.
#![tactic(auto)]

mod answer;
mod cells;
mod clear;
mod ends;
mod first;
mod forms;
mod laws;
mod line;
mod line_pivot;
mod long;
mod long_divisor;
mod long_forms;
mod long_pivot;
mod long_words;
mod numbers;
mod pairs;
mod pivot;
mod place;
mod ratio;
mod room;
mod row;
mod run;
mod shape;
mod solver;
mod stage;
mod tableau;
mod vectors;
mod word_divisor;
mod words;
mod workspace;

pub use answer::Answer;
pub use laws::{narrow_run_is_each_wider_run, no_basis_comes_twice, phase_two_reads_no_extra};
pub use place::{Place, Step};
pub use solver::{solve, solve_in};
pub use workspace::Workspace;
