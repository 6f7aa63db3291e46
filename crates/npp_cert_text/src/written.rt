//! Words, numbers and names at the end of a text.

ghost use Rattle.std.specs.Prelude.{◌≡◌, ◌++◌, ◌∷◌, OnOk, string_bytes, codes};
ghost use Rattle.npp_tree.specs.declared.item.Item.TheVariants as form;
ghost use Rattle.npp_report.specs.Lines.{line, item_line, number_fields, row_fields, status_word, step_word};

use npp_net::Memory;
use npp_rows::{Mark, RowName, Step};
use npp_tree::Status;
use std::fmt::Write;

/// A word.
pub(crate) fn write_word(text: &mut String, word: &str) -> Result<(), Memory>
    ensures { OnOk result (string_bytes text.new ≡ string_bytes text.old ++ word.now) }
{
    text.push_str(word)?;
    Ok(())
}

/// A word and the numbers behind it.
pub(crate) fn write_numbers(text: &mut String, word: &str, numbers: &[u32]) -> Result<(), Memory>
    ensures { OnOk result (string_bytes text.new ≡ string_bytes text.old ++ (word.now ++ number_fields numbers.now)) }
{
    text.push_str(word)?;
    write_fields(text, numbers)
}

/// A word, the numbers behind it, and a list of numbers behind these.
pub(crate) fn write_list(
    text: &mut String,
    word: &str,
    numbers: &[u32],
    list: &[u32],
) -> Result<(), Memory>
    ensures { OnOk result (string_bytes text.new ≡ string_bytes text.old ++ (word.now ++ number_fields (numbers.now ++ list.now))) }
{
    write_numbers(text, word, numbers)?;
    write_fields(text, list)
}

/// Numbers, each behind a space.
fn write_fields(text: &mut String, numbers: &[u32]) -> Result<(), Memory>
    ensures { OnOk result (string_bytes text.new ≡ string_bytes text.old ++ number_fields numbers.now) }
{
    for number in numbers {
        write!(text, " {number}")?;
    }
    Ok(())
}

/// How a search ended.
pub(crate) fn write_status(text: &mut String, status: Status) -> Result<(), Memory>
    ensures { OnOk result (line (string_bytes text.new) ≡ string_bytes text.old ++ item_line (form.StatusIs status)) }
{
    let word = status_word(status);
    write!(text, "status {word}")?;
    Ok(())
}

/// The word of a status.
fn status_word(status: Status) -> &'static str
    ensures { result.now ≡ status_word status }
{
    match status {
        Status::Optimal => "optimal",
        Status::Budget => "budget",
        Status::Overflow => "overflow",
    }
}

/// The ceiling of a toll arc, a dash for none.
pub(crate) fn write_limit(text: &mut String, toll: u32, ceiling: Option<u32>) -> Result<(), Memory>
    ensures { OnOk result (line (string_bytes text.new) ≡ string_bytes text.old ++ item_line (form.Limit toll ceiling)) }
{
    match ceiling {
        None => write!(text, "limit {toll} -")?,
        Some(most) => write!(text, "limit {toll} {most}")?,
    }
    Ok(())
}

/// The name of a row.
pub(crate) fn write_row(text: &mut String, row: RowName) -> Result<(), Memory>
    ensures { OnOk result (string_bytes text.new ≡ string_bytes text.old ++ row_fields row) }
{
    match row {
        RowName::Cap(a) => write_numbers(text, "cap", &[a]),
        RowName::Follow(k, q) => write_numbers(text, "follow", &[k, q]),
        RowName::Below(a, k) => write_numbers(text, "below", &[a, k]),
        RowName::Use(a, k) => write_numbers(text, "use", &[a, k]),
        RowName::Link(a, k) => write_numbers(text, "link", &[a, k]),
        RowName::One(k) => write_numbers(text, "one", &[k]),
        RowName::OneLow(k) => write_numbers(text, "onelow", &[k]),
        RowName::Cut(i) => write_numbers(text, "cut", &[i]),
    }
}

/// Why a program has no answer at a width.
pub(crate) fn write_mark(text: &mut String, mark: Mark) -> Result<(), Memory>
    ensures { OnOk result (line (string_bytes text.new) ≡ string_bytes text.old ++ item_line (form.Basic mark)) }
{
    match mark {
        Mark::Large => write_word(text, "basic large"),
        Mark::Capped => write_word(text, "basic capped"),
        Mark::Sum => write_word(text, "basic sum"),
        Mark::Overflow {
            pivot,
            step,
            row,
            column,
        } => {
            let step = step_word(step);
            write!(text, "basic overflow {pivot} {step} {row} {column}")?;
            Ok(())
        }
    }
}

/// The word of a step.
fn step_word(step: Step) -> &'static str
    ensures { result.now ≡ step_word step }
{
    match step {
        Step::Ratio => "ratio",
        Step::Pivot => "pivot",
    }
}
