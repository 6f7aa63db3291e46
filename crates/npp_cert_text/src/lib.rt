//! The text of certificates, line by line: the item that a line says, and the line of an item.
//!
//! A line has its fields between single spaces. An item has exactly one line, whose text is that of the report; a line
//! over 65,536 bytes, an empty list and a number in another spelling are no line.
#![tactic(auto)]

mod fields;
mod forms;
mod laws;
mod printing;
mod reading;
mod words;
mod written;

pub use laws::{line_and_item_are_inverse, short_lists_have_lines, text_and_items_are_inverse};
pub use printing::{print_line, write_item};
pub use reading::read_line;

/// The most bytes of a line, without its line feed.
pub const MAX_LINE: usize = 65_536;
