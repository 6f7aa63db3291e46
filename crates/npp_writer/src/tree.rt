//! The lines of nodes.

ghost use Rattle.std.specs.Prelude.{◌≡◌, ◌++◌, OnOk, string_bytes};
ghost use Rattle.npp_tree.specs.Evidence.{evidence_value, is_opened};
ghost use Rattle.npp_tree.specs.Outcome.{division_of, entry_value};
ghost use Rattle.npp_tree.specs.Lines.{evidence_lines, branch_lines, entry_lines};
ghost use Rattle.npp_tree.specs.declared.item.Item.TheVariants as form;
ghost use Rattle.npp_report.specs.Lines.{item_line, text_of};

use crate::lines::{write_block, write_line, write_numbers};
use npp_frac::Exact;
use npp_net::Memory;
use npp_tree::{Branch, CertNode, Evidence, Item};
use std::alloc::Global;
use std::fmt::Write;

/// The lines of a node: its evidence, and what comes below it.
pub(crate) fn write_node<N: Exact>(
    alloc: Global,
    text: &mut String,
    node: &CertNode<N>,
) -> Result<(), Memory>
    ensures { OnOk result (string_bytes text.new ≡ string_bytes text.old ++ text_of (entry_lines (entry_value N.rational node.now))) }
{
    write_evidence(alloc, text, &node.evidence)?;
    write_branch(text, is_opened(&node.evidence), &node.branch)
}

/// The lines of a node's evidence.
fn write_evidence<N: Exact>(
    alloc: Global,
    text: &mut String,
    evidence: &Evidence<N>,
) -> Result<(), Memory>
    ensures { OnOk result (string_bytes text.new ≡ string_bytes text.old ++ text_of (evidence_lines (evidence_value N.rational evidence.now))) }
{
    match evidence {
        Evidence::Unopened => write_word(text, "open\n"),
        Evidence::Basic(mark) => write_line::<N>(alloc, text, &Item::Basic(*mark)),
        Evidence::Dual(y) => write_block(alloc, text, "dual", y.entries()),
        Evidence::Farkas(y) => write_block(alloc, text, "farkas", y.entries()),
        Evidence::Inverse(y) => write_block(alloc, text, "inverse", y.entries()),
        Evidence::NoInverse(y) => write_block(alloc, text, "none", y.entries()),
    }
}

/// Whether a node of this evidence was opened.
fn is_opened<N: Exact>(evidence: &Evidence<N>) -> bool
    ensures { result ≡ is_opened (evidence_value N.rational evidence.now) }
{
    match evidence {
        Evidence::Unopened => false,
        _ => true,
    }
}

/// What comes below a node: a split, or that an opened node is a leaf.
fn write_branch(text: &mut String, opened: bool, branch: &Branch) -> Result<(), Memory>
    ensures { OnOk result (string_bytes text.new ≡ string_bytes text.old ++ text_of (branch_lines opened (division_of branch.now))) }
{
    match branch {
        Branch::Split { commodity, part } => write_split(text, *commodity, part.entries()),
        Branch::Leaf if opened => write_word(text, "leaf\n"),
        Branch::Leaf => Ok(()),
    }
}

/// The line of a split.
fn write_split(text: &mut String, commodity: u32, part: &[u32]) -> Result<(), Memory>
    ensures { OnOk result (string_bytes text.new ≡ string_bytes text.old ++ item_line (form.Split commodity part.now)) }
{
    write!(text, "split {commodity}")?;
    write_numbers(text, part)
}

/// A line of one word.
pub(crate) fn write_word(text: &mut String, word: &str) -> Result<(), Memory>
    ensures { OnOk result (string_bytes text.new ≡ string_bytes text.old ++ word.now) }
{
    text.push_str(word)?;
    Ok(())
}
