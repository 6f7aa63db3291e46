//! A program as text.

use npp_frac::{Exact, print_fraction};
use npp_lp::{Entry, Program};
use std::alloc::Global;

/// A program as text: how many columns it has, its goal, and a line for each row. A number stands behind its column and a colon;
/// those that are 0 are left out, and a row ends with its right side.
pub(crate) fn text_of<N: Exact>(alloc: Global, program: &Program<N>) -> Option<String> {
    let mut text = format!(in alloc; "columns {}\ngoal", program.columns()).ok()?;
    for (column, number) in program.goal().iter().enumerate() {
        write!(text, " {column}:{}", print_fraction(alloc, *number).ok()?).ok()?;
    }
    for row in 0..program.row_count() {
        if let Some(right) = program.right().get(row) {
            write_row(alloc, &mut text, program.row(row), *right)?;
        }
    }
    Some(text)
}

/// A row as text, on a line of its own.
fn write_row<N: Exact>(
    alloc: Global,
    text: &mut String,
    entries: &[Entry<N>],
    right: N,
) -> Option<()> {
    text.push_str("\nrow").ok()?;
    for entry in entries {
        write!(
            text,
            " {}:{}",
            entry.column,
            print_fraction(alloc, entry.value).ok()?
        )
        .ok()?;
    }
    write!(text, " <= {}", print_fraction(alloc, right).ok()?).ok()?;
    Some(())
}
