//! The job `paths`: the useful paths of each commodity.
ghost use Rattle.std.specs.Prelude.{◌≡◌, ◌++◌, ◌⊎◌, IfOk, OnOk, map, string_bytes};
ghost use Rattle.npp_net.specs.TollSets.{tolls_of};
ghost use Rattle.npp_bounds.specs.Spans.{AreSpans};
ghost use Rattle.npp_cover.specs.PathValue.{path_value};
ghost use Rattle.npp_cli.specs.Answer.{IsAnswer, answer_text};
ghost use Rattle.npp_cli.specs.Listed.{IsListed, IsOverLimit};
ghost use Rattle.npp_report.specs.Lines.{number_fields, numbered_lines};
ghost use Rattle.npp_cli.specs.PathsText.{paths_text, commodity_lines, useful_line};

use crate::answers::{Answer, over_limit};
use npp_cover::{Cover, UsefulPath};
use npp_labels::useful_all;
use npp_net::{Instance, Memory, Span, TollSet};
use npp_report::write_arcs;
use std::alloc::Global;
use std::fmt::Write;

/// The useful paths of each commodity, or the first commodity that passes a limit.
///
/// The spans are those of the instance, one for each commodity in order.
pub fn paths(alloc: Global, instance: &Instance, spans: &[Span]) -> Result<Answer, Memory>
    requires { AreSpans instance.now.arcs instance.now.commodities spans.now }
    ensures { IfOk result (λ answer. IsListed instance.now answer.status (answer_text answer)
        ⊎ IsOverLimit instance.now answer.status (answer_text answer)) }
{
    match useful_all(alloc, instance, spans) {
        Ok(covers) => listed(alloc, &covers),
        Err(refusal) => over_limit(alloc, refusal),
    }
}

// The text of the useful paths.
fn listed(alloc: Global, covers: &[Cover]) -> Result<Answer, Memory>
    ensures { IfOk result (IsAnswer 0 (paths_text covers.now)) }
{
    let mut text = String::new(alloc);
    write_covers(&mut text, covers)?;
    Ok(Answer::with_text(0, text))
}

// The lines of each commodity.
fn write_covers(text: &mut String, covers: &[Cover]) -> Result<(), Memory>
    ensures { OnOk result (string_bytes text.new ≡ string_bytes text.old ++ paths_text covers.now) }
{
    for (k, cover) in covers.iter().enumerate() {
        write_cover(text, k, cover)?;
    }
    Ok(())
}

// The lines of commodity k.
fn write_cover(text: &mut String, k: usize, cover: &Cover) -> Result<(), Memory>
    ensures { OnOk result (string_bytes text.new ≡ string_bytes text.old ++ commodity_lines k cover.now) }
{
    let paths = cover.paths();
    writeln!(text, "commodity {k} {}", paths.len())?;
    write_paths(text, k, paths)
}

// One line for each useful path of commodity k.
fn write_paths(text: &mut String, k: usize, paths: &[UsefulPath]) -> Result<(), Memory>
    ensures { OnOk result (string_bytes text.new ≡ string_bytes text.old ++ numbered_lines (useful_line k) 0 (map path_value paths.now)) }
{
    for (q, path) in paths.iter().enumerate() {
        write_path(text, k, q, path)?;
    }
    Ok(())
}

// The line of useful path q of commodity k.
fn write_path(text: &mut String, k: usize, q: usize, path: &UsefulPath) -> Result<(), Memory>
    ensures { OnOk result (string_bytes text.new ≡ string_bytes text.old ++ useful_line k q (path_value path.now)) }
{
    write!(text, "useful {k} {q} {} tolls", path.cost)?;
    write_tolls(text, path.tolls)?;
    write!(text, " arcs")?;
    write_arcs(text, &path.walk.arcs)?;
    writeln!(text)?;
    Ok(())
}

// The toll numbers of the set, each after a space.
fn write_tolls(text: &mut String, tolls: TollSet) -> Result<(), Memory>
    ensures { OnOk result (string_bytes text.new ≡ string_bytes text.old ++ number_fields (tolls_of tolls)) }
{
    for toll in tolls.tolls() {
        write!(text, " {}", toll.0)?;
    }
    Ok(())
}
