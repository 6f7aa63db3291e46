//! Lines at the end of a text.

ghost use Rattle.std.specs.Prelude.{◌≡◌, ◌++◌, ◌∷◌, [], OnOk, length, map, string_bytes};
ghost use Rattle.npp_rows.specs.Meaning.{multiplier_value};
ghost use Rattle.npp_tree.specs.Items.{item_of};
ghost use Rattle.npp_tree.specs.declared.item.Item.TheVariants as form;
ghost use Rattle.npp_report.specs.Lines.{line, item_line, number_fields, text_of};

use npp_cert_text::write_item;
use npp_frac::Exact;
use npp_net::Memory;
use npp_rows::Multiplier;
use npp_tree::Item;
use std::alloc::Global;
use std::fmt::Write;

/// The line of an item.
pub(crate) fn write_line<N: Exact>(
    alloc: Global,
    text: &mut String,
    item: &Item<N>,
) -> Result<(), Memory>
    ensures { OnOk result (string_bytes text.new ≡ string_bytes text.old ++ item_line (item_of N.rational item.now)) }
{
    write_item(alloc, text, item)?;
    text.push_str("\n")?;
    Ok(())
}

/// Numbers, each behind a space, and the end of their line.
pub(crate) fn write_numbers(text: &mut String, numbers: &[u32]) -> Result<(), Memory>
    ensures { OnOk result (string_bytes text.new ≡ string_bytes text.old ++ line (number_fields numbers.now)) }
{
    write_fields(text, numbers)?;
    text.push_str("\n")?;
    Ok(())
}

/// Numbers, each behind a space.
fn write_fields(text: &mut String, numbers: &[u32]) -> Result<(), Memory>
    ensures { OnOk result (string_bytes text.new ≡ string_bytes text.old ++ number_fields numbers.now) }
{
    for number in numbers {
        write!(text, " {number}")?;
    }
    Ok(())
}

/// A block of multipliers: a word with how many there are, and a line for each.
pub(crate) fn write_block<N: Exact>(
    alloc: Global,
    text: &mut String,
    word: &str,
    multipliers: &[Multiplier<N>],
) -> Result<(), Memory>
    ensures { OnOk result (string_bytes text.new ≡ string_bytes text.old ++ (line (word.now ++ number_fields (length multipliers.now ∷ []))
        ++ text_of (map form.Mult (map (multiplier_value N.rational) multipliers.now)))) }
{
    writeln!(text, "{word} {}", multipliers.len())?;
    write_multipliers(alloc, text, multipliers)
}

/// A line for each multiplier.
pub(crate) fn write_multipliers<N: Exact>(
    alloc: Global,
    text: &mut String,
    multipliers: &[Multiplier<N>],
) -> Result<(), Memory>
    ensures { OnOk result (string_bytes text.new ≡ string_bytes text.old
        ++ text_of (map form.Mult (map (multiplier_value N.rational) multipliers.now))) }
{
    for multiplier in multipliers {
        write_line(alloc, text, &Item::Mult(*multiplier))?;
    }
    Ok(())
}
