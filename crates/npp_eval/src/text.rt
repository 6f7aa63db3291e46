//! The text of what tolls earn.

ghost use Rattle.std.specs.Prelude.{◌≡◌, IfOk, string_bytes};
ghost use Rattle.npp_eval.specs.Evaluated.{evaluation_value};
ghost use Rattle.npp_eval.specs.Text.{evaluation_text};

use crate::evaluation::Evaluation;
use npp_frac::Exact;
use npp_net::Memory;
use npp_report::{write_fraction, write_paths};
use std::alloc::Global;
use std::fmt::Write;

/// A line with the revenue, and a line for the walk of each commodity, as in a report.
pub fn evaluation_text<N: Exact>(
    alloc: Global,
    evaluation: &Evaluation<N>,
) -> Result<String, Memory>
    ensures { IfOk result (λ text. string_bytes text ≡ evaluation_text (evaluation_value N.rational evaluation.now)) }
{
    let mut text = String::from_str(alloc, "revenue ")?;
    write_fraction(alloc, &mut text, evaluation.revenue)?;
    writeln!(text)?;
    write_paths(alloc, &mut text, evaluation.paths.entries())?;
    Ok(text)
}
