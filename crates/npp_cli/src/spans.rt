//! The job `bounds`: the least costs of each commodity, and the basic bound.
ghost use Rattle.std.specs.Prelude.{◌≡◌, ◌++◌, ℕ, IfOk, OnOk, string_bytes};
ghost use Rattle.npp_bounds.specs.Spans.{AreSpans};
ghost use Rattle.npp_cli.specs.Answer.{answer_text};
ghost use Rattle.npp_cli.specs.Answers.{IsBounded};
ghost use Rattle.npp_report.specs.Lines.{numbered_lines};
ghost use Rattle.npp_cli.specs.SpansText.{span_line};

use crate::answers::Answer;
use npp_bounds::basic_bound;
use npp_net::{Instance, Memory, Span};
use std::alloc::Global;
use std::fmt::Write;

/// The least costs of each commodity and the basic bound.
///
/// The spans are those of the instance, one for each commodity in order.
pub fn bounds(alloc: Global, instance: &Instance, spans: &[Span]) -> Result<Answer, Memory>
    requires { AreSpans instance.now.arcs instance.now.commodities spans.now }
    ensures { IfOk result (λ answer. IsBounded instance.now answer.status (answer_text answer)) }
{
    let mut text = String::new(alloc);
    write_spans(&mut text, spans)?;
    writeln!(text, "basic {}", basic_bound(instance, spans))?;
    Ok(Answer::with_text(0, text))
}

// One line for each commodity.
fn write_spans(text: &mut String, spans: &[Span]) -> Result<(), Memory>
    ensures { OnOk result (string_bytes text.new ≡ string_bytes text.old ++ numbered_lines span_line 0 spans.now) }
{
    for (k, span) in spans.iter().enumerate() {
        writeln!(text, "span {k} {} {}", span.free, span.zero)?;
    }
    Ok(())
}
