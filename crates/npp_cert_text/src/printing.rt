//! The line of an item.

ghost use Rattle.std.specs.Prelude.{◌≡◌, ◌++◌, ◌∷◌, Some, IfOk, OnOk, string_bytes};
ghost use Rattle.npp_frac.specs.FractionText.{fraction_text};
ghost use Rattle.npp_frac.specs.Wide.{value_of_wide};
ghost use Rattle.npp_rows.specs.Meaning.{multiplier_value};
ghost use Rattle.npp_tree.specs.Items.{item_of};
ghost use Rattle.npp_tree.specs.declared.item.Item.TheVariants as form;
ghost use Rattle.npp_report.specs.Lines.{line, item_line};
ghost use Rattle.npp_cert_text.specs.Form.{HasLine, IsLineOf};
ghost use Rattle.npp_cert_text.specs.Reading.{item_in};

use crate::written::{
    write_limit, write_list, write_mark, write_numbers, write_row, write_status, write_word,
};
use npp_frac::{Exact, Frac128};
use npp_net::{ArcId, Memory};
use npp_report::{write_arcs, write_fraction};
use npp_rows::Multiplier;
use npp_tree::Item;
use std::alloc::Global;
use std::fmt::Write;

/// The line of an item, without its line feed. Its numbers are in range, no list of it is empty, and the line is short
/// enough, as for each item that a line says.
pub fn print_line(alloc: Global, item: &Item<Frac128>) -> Result<Vec<u8>, Memory>
    requires { HasLine (item_of value_of_wide item.now) }
    ensures text { IfOk result (λ v. IsLineOf v.items (item_of value_of_wide item.now)) }
    ensures read { IfOk result (λ v. item_in v.items ≡ Some (item_of value_of_wide item.now)) }
{
    let mut text = String::new(alloc);
    write_item(alloc, &mut text, item)?;
    Ok(text.into_bytes())
}

/// The line of an item at the end of a text, without its line feed. The item may be one that has no line: what stands
/// there is then the text of no line.
pub fn write_item<N: Exact>(alloc: Global, text: &mut String, item: &Item<N>) -> Result<(), Memory>
    ensures { OnOk result (line (string_bytes text.new) ≡ string_bytes text.old ++ item_line (item_of N.rational item.now)) }
{
    match item {
        Item::Header => write_word(text, "npp-certificate 1"),
        Item::HeaderTwo => write_word(text, "npp-certificate 2"),
        Item::StatusIs(status) => write_status(text, *status),
        Item::Width(bits) => write_numbers(text, "width", &[*bits]),
        Item::Lower(value) => write_value(alloc, text, "lower", *value),
        Item::Upper(value) => write_value(alloc, text, "upper", *value),
        Item::Opened(nodes) => write_numbers(text, "opened", &[*nodes]),
        Item::InstanceIs {
            nodes,
            arcs,
            tolls,
            commodities,
        } => write_numbers(text, "instance", &[*nodes, *arcs, *tolls, *commodities]),
        Item::Limit { toll, ceiling } => write_limit(text, *toll, *ceiling),
        Item::Toll { toll, value } => write_toll(alloc, text, *toll, *value),
        Item::Path {
            commodity,
            cost,
            paid,
            arcs,
        } => write_path(alloc, text, *commodity, *cost, *paid, arcs.entries()),
        Item::Cover { commodity, labels } => write_numbers(text, "cover", &[*commodity, *labels]),
        Item::Start => write_word(text, "start"),
        Item::Step { parent, arc } => write_numbers(text, "step", &[*parent, arc.0]),
        Item::Free { arcs } => write_free(text, arcs.entries()),
        Item::Cuts(cuts) => write_numbers(text, "cuts", &[*cuts]),
        Item::Conflict { k, p, l, q, lines } => {
            write_numbers(text, "conflict", &[*k, *p, *l, *q, *lines])
        }
        Item::Pair { k, p, l, cuts } => write_list(text, "pair", &[*k, *p, *l], cuts.entries()),
        Item::Round { lines } => write_numbers(text, "round", &[*lines]),
        Item::Mult(multiplier) => write_multiplier(alloc, text, multiplier),
        Item::Tree => write_word(text, "tree"),
        Item::Open => write_word(text, "open"),
        Item::Basic(mark) => write_mark(text, *mark),
        Item::Dual(lines) => write_numbers(text, "dual", &[*lines]),
        Item::Farkas(lines) => write_numbers(text, "farkas", &[*lines]),
        Item::Inverse(lines) => write_numbers(text, "inverse", &[*lines]),
        Item::NoInverse(lines) => write_numbers(text, "none", &[*lines]),
        Item::Leaf => write_word(text, "leaf"),
        Item::Split { commodity, part } => {
            write_list(text, "split", &[*commodity], part.entries())
        }
        Item::End => write_word(text, "end"),
    }
}

/// A word and a fraction.
fn write_value<N: Exact>(
    alloc: Global,
    text: &mut String,
    word: &str,
    value: N,
) -> Result<(), Memory>
    ensures { OnOk result (string_bytes text.new ≡ string_bytes text.old ++ (word.now ++ 32 ∷ fraction_text (N.rational value))) }
{
    write!(text, "{word} ")?;
    write_fraction(alloc, text, value)
}

/// The toll of a toll arc.
fn write_toll<N: Exact>(alloc: Global, text: &mut String, toll: u32, value: N) -> Result<(), Memory>
    ensures { OnOk result (line (string_bytes text.new) ≡ string_bytes text.old ++ item_line (form.Toll toll (N.rational value))) }
{
    write!(text, "toll {toll} ")?;
    write_fraction(alloc, text, value)
}

/// The walk of a commodity.
fn write_path<N: Exact>(
    alloc: Global,
    text: &mut String,
    commodity: u32,
    cost: u64,
    paid: N,
    arcs: &[ArcId],
) -> Result<(), Memory>
    ensures { OnOk result (line (string_bytes text.new) ≡ string_bytes text.old ++ item_line (form.Path commodity cost (N.rational paid) arcs.now)) }
{
    write!(text, "path {commodity} {cost} ")?;
    write_fraction(alloc, text, paid)?;
    write_arcs(text, arcs)
}

/// The toll-free walk of a cover.
fn write_free(text: &mut String, arcs: &[ArcId]) -> Result<(), Memory>
    ensures { OnOk result (line (string_bytes text.new) ≡ string_bytes text.old ++ item_line (form.Free arcs.now)) }
{
    text.push_str("free")?;
    write_arcs(text, arcs)
}

/// A multiplier, with the name of its row.
fn write_multiplier<N: Exact>(
    alloc: Global,
    text: &mut String,
    multiplier: &Multiplier<N>,
) -> Result<(), Memory>
    ensures { OnOk result (line (string_bytes text.new) ≡ string_bytes text.old ++ item_line (form.Mult (multiplier_value N.rational multiplier.now))) }
{
    text.push_str("y ")?;
    write_row(text, multiplier.row)?;
    text.push_str(" ")?;
    write_fraction(alloc, text, multiplier.value)
}
