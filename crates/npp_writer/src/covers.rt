//! The lines of covers.

ghost use Rattle.std.specs.Prelude.{◌≡◌, ◌++◌, OnOk, map, string_bytes};
ghost use Rattle.npp_cover.specs.PathValue.{path_value};
ghost use Rattle.npp_tree.specs.declared.item.Item.TheVariants as form;
ghost use Rattle.npp_tree.specs.Lines.{cover_lines, label_line, last_arcs};
ghost use Rattle.npp_report.specs.Lines.{item_line, text_of};

use npp_cover::{Cover, Label, UsefulPath};
use npp_net::{ArcId, Memory};
use npp_report::write_arcs;
use std::fmt::Write;

/// The lines of the cover of commodity k: its labels, and its toll-free walk.
pub(crate) fn write_cover(text: &mut String, k: usize, cover: &Cover) -> Result<(), Memory>
    ensures { OnOk result (string_bytes text.new ≡ string_bytes text.old ++ text_of (cover_lines k cover.now)) }
{
    let labels = cover.labels();
    writeln!(text, "cover {k} {}", labels.len())?;
    write_labels(text, labels)?;
    write_free(text, last_arcs(cover.paths()))
}

/// A line for each label.
fn write_labels(text: &mut String, labels: &[Label]) -> Result<(), Memory>
    ensures { OnOk result (string_bytes text.new ≡ string_bytes text.old ++ text_of (map label_line labels.now)) }
{
    for label in labels {
        write_label(text, *label)?;
    }
    Ok(())
}

/// The line of a label: the start, or a step.
fn write_label(text: &mut String, label: Label) -> Result<(), Memory>
    ensures { OnOk result (string_bytes text.new ≡ string_bytes text.old ++ item_line (label_line label)) }
{
    match label.last {
        None => text.push_str("start\n")?,
        Some(arc) => writeln!(text, "step {} {}", label.parent, arc.0)?,
    }
    Ok(())
}

/// The arcs of the last path, which is the toll-free one.
fn last_arcs(paths: &[UsefulPath]) -> &[ArcId]
    ensures { result.now ≡ last_arcs (map path_value paths.now) }
{
    match paths.last() {
        Some(path) => &path.walk.arcs,
        None => &[],
    }
}

/// The line of a toll-free walk.
fn write_free(text: &mut String, arcs: &[ArcId]) -> Result<(), Memory>
    ensures { OnOk result (string_bytes text.new ≡ string_bytes text.old ++ item_line (form.Free arcs.now)) }
{
    text.push_str("free")?;
    write_arcs(text, arcs)?;
    text.push_str("\n")?;
    Ok(())
}
