//! Words of more than one line.

ghost use Rattle.std.specs.Prelude.{◌≡◌};
ghost use Rattle.std.specs.Str.{bytes_eq};
ghost use Rattle.npp_cert_text.specs.Said.{Reads};
ghost use Rattle.npp_cert_text.specs.Reading.{take_row, take_mark, take_step, take_status, take_place};

use crate::fields::Fields;
use npp_rows::{Mark, RowName, Step};
use npp_tree::Status;

/// Whether a field is this word.
pub(crate) fn is_word(field: &[u8], word: &[u8]) -> bool
    ensures { result ≡ bytes_eq field.now word.now }
{
    field == word
}

/// How a search ended.
pub(crate) fn status(fields: &mut Fields) -> Option<Status>
    ensures { Reads (λ s. s) take_status fields.old result fields.new }
{
    let word = fields.field()?;
    if is_word(word, b"optimal") {
        Some(Status::Optimal)
    } else if is_word(word, b"budget") {
        Some(Status::Budget)
    } else if is_word(word, b"overflow") {
        Some(Status::Overflow)
    } else {
        None
    }
}

/// The name of a row.
#[tactic(auto, unfolding(crate::specs::Taking::and_then))]
pub(crate) fn row(fields: &mut Fields) -> Option<RowName>
    ensures { Reads (λ r. r) take_row fields.old result fields.new }
{
    let word = fields.field()?;
    if is_word(word, b"cap") {
        Some(RowName::Cap(fields.number()?))
    } else if is_word(word, b"follow") {
        Some(RowName::Follow(fields.number()?, fields.number()?))
    } else if is_word(word, b"below") {
        Some(RowName::Below(fields.number()?, fields.number()?))
    } else if is_word(word, b"use") {
        Some(RowName::Use(fields.number()?, fields.number()?))
    } else if is_word(word, b"link") {
        Some(RowName::Link(fields.number()?, fields.number()?))
    } else if is_word(word, b"one") {
        Some(RowName::One(fields.number()?))
    } else if is_word(word, b"onelow") {
        Some(RowName::OneLow(fields.number()?))
    } else if is_word(word, b"cut") {
        Some(RowName::Cut(fields.number()?))
    } else {
        None
    }
}

/// Why a program has no answer at a width.
pub(crate) fn mark(fields: &mut Fields) -> Option<Mark>
    ensures { Reads (λ m. m) take_mark fields.old result fields.new }
{
    let word = fields.field()?;
    if is_word(word, b"large") {
        Some(Mark::Large)
    } else if is_word(word, b"capped") {
        Some(Mark::Capped)
    } else if is_word(word, b"sum") {
        Some(Mark::Sum)
    } else if is_word(word, b"overflow") {
        place(fields)
    } else {
        None
    }
}

/// The place of an overflow.
#[tactic(auto, unfolding(crate::specs::Taking::and_then))]
fn place(fields: &mut Fields) -> Option<Mark>
    ensures { Reads (λ m. m) take_place fields.old result fields.new }
{
    let pivot = fields.number()?;
    let step = step(fields)?;
    let row = fields.number()?;
    let column = fields.number()?;
    Some(Mark::Overflow {
        pivot,
        step,
        row,
        column,
    })
}

/// The step of a pivot.
fn step(fields: &mut Fields) -> Option<Step>
    ensures { Reads (λ s. s) take_step fields.old result fields.new }
{
    let word = fields.field()?;
    if is_word(word, b"ratio") {
        Some(Step::Ratio)
    } else if is_word(word, b"pivot") {
        Some(Step::Pivot)
    } else {
        None
    }
}
