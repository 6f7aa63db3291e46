//! The lines of cuts.

ghost use Rattle.std.specs.Prelude.{◌≡◌, ◌++◌, ◌∷◌, [], OnOk, string_bytes};
ghost use Rattle.npp_rows.specs.Meaning.{derivation_value};
ghost use Rattle.npp_tree.specs.declared.item.Item.TheVariants as form;
ghost use Rattle.npp_tree.specs.Lines.{cut_lines};
ghost use Rattle.npp_report.specs.Lines.{item_line, text_of};

use crate::lines::{write_block, write_multipliers, write_numbers};
use npp_frac::Exact;
use npp_net::Memory;
use npp_rows::Derivation;
use std::alloc::Global;
use std::fmt::Write;

/// The line that tells how many cuts there are.
pub(crate) fn write_count(text: &mut String, cuts: usize) -> Result<(), Memory>
    ensures { OnOk result (string_bytes text.new ≡ string_bytes text.old ++ item_line (form.Cuts cuts)) }
{
    writeln!(text, "cuts {cuts}")?;
    Ok(())
}

/// The lines of a cut: how it is derived.
pub(crate) fn write_cut<N: Exact>(
    alloc: Global,
    text: &mut String,
    cut: &Derivation<N>,
) -> Result<(), Memory>
    ensures { OnOk result (string_bytes text.new ≡ string_bytes text.old ++ text_of (cut_lines (derivation_value N.rational cut.now))) }
{
    match cut {
        Derivation::Conflict { k, p, l, q, y } => {
            writeln!(text, "conflict {k} {p} {l} {q} {}", y.len())?;
            write_multipliers(alloc, text, y.entries())
        }
        Derivation::Pair { k, p, l, cuts } => write_pair(text, *k, *p, *l, cuts.entries()),
        Derivation::Round { y } => write_block(alloc, text, "round", y.entries()),
    }
}

/// The line of a path of one commodity that is in conflict with paths of another.
fn write_pair(text: &mut String, k: u32, p: u32, l: u32, cuts: &[u32]) -> Result<(), Memory>
    ensures { OnOk result (string_bytes text.new ≡ string_bytes text.old ++ item_line (form.Pair k p l cuts.now)) }
{
    write!(text, "pair {k} {p} {l}")?;
    write_numbers(text, cuts)
}
