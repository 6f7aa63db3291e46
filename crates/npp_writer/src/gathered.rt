//! Lines that are gathered in a text, which is handed to a sink when it has many bytes.

ghost use Rattle.std.specs.Prelude.{◌++◌, [], MatchResult, length, string_bytes};
ghost use Rattle.std.specs.List.{flat_map};
ghost use Rattle.npp_rows.specs.Meaning.{derivation_value};
ghost use Rattle.npp_tree.specs.Outcome.{entry_value};
ghost use Rattle.npp_tree.specs.Lines.{cover_lines, cut_lines, entry_lines};
ghost use Rattle.npp_tree.specs.declared.item.Item.TheVariants as form;
ghost use Rattle.npp_report.specs.Lines.{item_line, numbered_lines, text_of};
ghost use Rattle.npp_writer.specs.Handed.{Hands, IsWanting};

use crate::covers::write_cover;
use crate::cuts::{write_count, write_cut};
use crate::tree::{write_node, write_word};
use npp_cover::Cover;
use npp_frac::Exact;
use npp_net::Memory;
use npp_outside::{Sink, SinkAnswer, write_whole};
use npp_rows::Derivation;
use npp_tree::{CertNode, Outcome};
use std::alloc::Global;

/// How many bytes are gathered before they are handed on.
const MANY: usize = 65_536;

/// The room that is taken for what is gathered.
pub(crate) const ROOM: usize = 2 * MANY;

/// The lines behind the report: the covers, the cuts and the tree.
pub(crate) fn put_evidence<N: Exact, O: Sink>(
    alloc: Global,
    text: &mut String,
    covers: &[Cover],
    outcome: &Outcome<N>,
    out: &mut O,
) -> Result<(), SinkAnswer>
    ensures { Hands (O.written out.old) (O.written out.new) (O.faults out.old) (O.faults out.new) (string_bytes text.old)
        (numbered_lines (λ k c. text_of (cover_lines k c)) 0 covers.now
        ++ item_line (form.Cuts (length outcome.now.cuts))
        ++ flat_map (λ d. text_of (cut_lines (derivation_value N.rational d))) outcome.now.cuts
        ++ item_line form.Tree
        ++ flat_map (λ n. text_of (entry_lines (entry_value N.rational n))) outcome.now.tree.nodes
        ++ item_line form.End) (string_bytes text.new) result }
{
    put_covers(text, covers, out)?;
    let cuts = outcome.cuts.entries();
    pass_on(write_count(text, cuts.len()), text, out)?;
    put_cuts(alloc, text, cuts, out)?;
    pass_on(write_word(text, "tree\n"), text, out)?;
    put_nodes(alloc, text, outcome.tree.nodes.entries(), out)?;
    pass_on(write_word(text, "end\n"), text, out)
}

/// The lines of each cover.
fn put_covers<O: Sink>(text: &mut String, covers: &[Cover], out: &mut O) -> Result<(), SinkAnswer>
    ensures { Hands (O.written out.old) (O.written out.new) (O.faults out.old) (O.faults out.new) (string_bytes text.old)
        (numbered_lines (λ k c. text_of (cover_lines k c)) 0 covers.now) (string_bytes text.new) result }
{
    for (k, cover) in covers.iter().enumerate() {
        pass_on(write_cover(text, k, cover), text, out)?;
    }
    Ok(())
}

/// The lines of each cut.
fn put_cuts<N: Exact, O: Sink>(
    alloc: Global,
    text: &mut String,
    cuts: &[Derivation<N>],
    out: &mut O,
) -> Result<(), SinkAnswer>
    ensures { Hands (O.written out.old) (O.written out.new) (O.faults out.old) (O.faults out.new) (string_bytes text.old)
        (flat_map (λ d. text_of (cut_lines (derivation_value N.rational d))) cuts.now) (string_bytes text.new) result }
{
    for cut in cuts {
        pass_on(write_cut(alloc, text, cut), text, out)?;
    }
    Ok(())
}

/// The lines of each node.
fn put_nodes<N: Exact, O: Sink>(
    alloc: Global,
    text: &mut String,
    nodes: &[CertNode<N>],
    out: &mut O,
) -> Result<(), SinkAnswer>
    ensures { Hands (O.written out.old) (O.written out.new) (O.faults out.old) (O.faults out.new) (string_bytes text.old)
        (flat_map (λ n. text_of (entry_lines (entry_value N.rational n))) nodes.now) (string_bytes text.new) result }
{
    for node in nodes {
        pass_on(write_node(alloc, text, node), text, out)?;
    }
    Ok(())
}

/// Goes on behind lines that were added to the text: hands all of it on where it has many bytes. Where memory was wanting
/// for the lines, that is the answer.
fn pass_on<O: Sink>(
    added: Result<(), Memory>,
    text: &mut String,
    out: &mut O,
) -> Result<(), SinkAnswer>
    ensures { MatchResult added
        (λ _. Hands (O.written out.old) (O.written out.new) (O.faults out.old) (O.faults out.new) (string_bytes text.old) [] (string_bytes text.new) result)
        (λ _. IsWanting (O.written out.old) (O.written out.new) (O.faults out.old) (O.faults out.new) result) }
{
    if added.is_err() {
        return Err(SinkAnswer::Memory);
    }
    if text.len() < MANY {
        return Ok(());
    }
    write_whole(out, text.as_bytes())?;
    text.clear();
    Ok(())
}
