//! The outside of the program: a shelf, from which files are read by pieces, and a sink, to which text is written.
//!
//! Both are traits, so that a contract can name the bytes that a shelf holds and the bytes that a sink was given.
//! `SureShelf` and `SureSink` stand in memory and tell these bytes.
//! `MemoryShelf` and `MemorySink` do so too, and fail in the calls that they are told.
//! `FileShelf` and `StdSink` are the system's files and standard output, whose bytes no contract can know.
#![tactic(auto)]

mod calls;
mod file_shelf;
mod memory_shelf;
mod memory_sink;
mod shelf;
mod sink;
mod std_sink;
mod sure_shelf;
mod sure_sink;

pub use file_shelf::FileShelf;
pub use memory_shelf::MemoryShelf;
pub use memory_sink::MemorySink;
pub use shelf::{Shelf, ShelfAnswer};
pub use sink::{Sink, SinkAnswer, write_whole};
pub use std_sink::StdSink;
pub use sure_shelf::SureShelf;
pub use sure_sink::SureSink;
