//! The check of a certificate as text, whose bytes may come in pieces of any length.
//!
//! Each line is judged as soon as it is whole, before more bytes are asked for. What is kept of a text is what the
//! checker keeps of its lines, and the bytes of the line that is still open.
#![tactic(auto)]

mod file;
mod lines;
mod refusal;
mod stream;
mod text;

pub use file::check_file;
pub use refusal::{FileRefusal, TextRefusal};
pub use text::check_text;
