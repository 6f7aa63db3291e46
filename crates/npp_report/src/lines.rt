//! The lines of tolls and of walks.

ghost use Rattle.std.specs.Prelude.{◌≡◌, ◌++◌, map, OnOk, string_bytes};
ghost use Rattle.npp_frac.specs.FractionText.{fraction_text};
ghost use Rattle.npp_tree.specs.Outcome.{path_line_value};
ghost use Rattle.npp_report.specs.Lines.{arc_fields, toll_line, path_line, toll_lines, path_lines};

use npp_frac::{Exact, print_fraction};
use npp_net::{ArcId, Memory};
use npp_tree::PathLine;
use std::alloc::Global;
use std::fmt::Write;

/// The text of a fraction at the end of a text.
pub fn write_fraction<N: Exact>(alloc: Global, text: &mut String, value: N) -> Result<(), Memory>
    ensures { OnOk result (string_bytes text.new ≡ string_bytes text.old ++ fraction_text (N.rational value)) }
{
    match print_fraction(alloc, value) {
        Ok(fraction) => {
            text.push_str(&fraction)?;
            Ok(())
        }
        Err(_) => Err(Memory),
    }
}

/// The numbers of the arcs, each after a space.
pub fn write_arcs(text: &mut String, arcs: &[ArcId]) -> Result<(), Memory>
    ensures { OnOk result (string_bytes text.new ≡ string_bytes text.old ++ arc_fields arcs.now) }
{
    for arc in arcs {
        write!(text, " {}", arc.0)?;
    }
    Ok(())
}

/// One line for each toll arc, in the order of their numbers: its number and its toll.
pub fn write_tolls<N: Exact>(alloc: Global, text: &mut String, tolls: &[N]) -> Result<(), Memory>
    ensures { OnOk result (string_bytes text.new ≡ string_bytes text.old ++ toll_lines (map N.rational tolls.now)) }
{
    for (number, toll) in tolls.iter().enumerate() {
        write_toll(alloc, text, number, *toll)?;
    }
    Ok(())
}

/// The line of a toll.
fn write_toll<N: Exact>(
    alloc: Global,
    text: &mut String,
    number: usize,
    toll: N,
) -> Result<(), Memory>
    ensures { OnOk result (string_bytes text.new ≡ string_bytes text.old ++ toll_line number (N.rational toll)) }
{
    write!(text, "toll {number} ")?;
    write_fraction(alloc, text, toll)?;
    writeln!(text)?;
    Ok(())
}

/// One line for each walk, in the order of the commodities: the number of the commodity, what the walk costs, what it
/// pays, and its arcs.
pub fn write_paths<N: Exact>(
    alloc: Global,
    text: &mut String,
    paths: &[PathLine<N>],
) -> Result<(), Memory>
    ensures { OnOk result (string_bytes text.new ≡ string_bytes text.old ++ path_lines (map (path_line_value N.rational) paths.now)) }
{
    for (k, path) in paths.iter().enumerate() {
        write_path(alloc, text, k, path)?;
    }
    Ok(())
}

/// The line of the walk of commodity k.
fn write_path<N: Exact>(
    alloc: Global,
    text: &mut String,
    k: usize,
    path: &PathLine<N>,
) -> Result<(), Memory>
    ensures { OnOk result (string_bytes text.new ≡ string_bytes text.old ++ path_line k (path_line_value N.rational path.now)) }
{
    write!(text, "path {k} {} ", path.cost)?;
    write_fraction(alloc, text, path.paid)?;
    write_arcs(text, path.arcs.entries())?;
    writeln!(text)?;
    Ok(())
}
