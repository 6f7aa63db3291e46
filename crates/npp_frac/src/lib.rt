//! Exact fractions of three widths.
//!
//! Every operation of the trait `Exact` answers the exact value, or refuses by one stated rule
//! where a number that it needs does not fit the width.
#![tactic(auto)]

mod arithmetic;
mod comparison;
mod exact;
mod frac128;
mod frac128_exact;
mod frac32;
mod frac32_exact;
mod frac64;
mod frac64_exact;
mod gcd;
mod numbers;
mod reduced;
mod reduced_words;
mod refusal;
mod sign;
mod text;
mod widening;
mod widths;
mod word_arithmetic;
mod word_numbers;

pub use exact::Exact;
pub use frac32::Frac32;
pub use frac64::Frac64;
pub use frac128::Frac128;
pub use refusal::{Memory, Op, Overflow};
pub use sign::{is_below, is_negative, is_positive, is_zero};
pub use text::{parse_fraction, print_fraction};
pub use widths::{apply, apply_at_both};
