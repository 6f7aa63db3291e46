//! A sink in memory that never fails.
ghost use Rattle.std.specs.Prelude.{◌≡◌, ℕ, List, [], Some};

use crate::{Sink, SinkAnswer};
use std::alloc::Global;

/// A sink that keeps all bytes, as long as there is memory for them. Its `faults` is 0 for good.
#[derive(Drop)]
pub struct SureSink {
    bytes: Vec<u8>,
}

impl SureSink {
    /// A sink to which nothing was written yet. It keeps the allocator, from which its writes take memory.
    pub fn new(alloc: Global) -> Self
        ensures { ⟦<SureSink as Sink>⟧.written result ≡ Some [] }
    {
        SureSink {
            bytes: Vec::new(alloc),
        }
    }

    /// All bytes that were written so far.
    pub fn written(&self) -> &[u8]
        ensures { ⟦<SureSink as Sink>⟧.written self.now ≡ Some result.now }
    {
        &self.bytes
    }
}

impl Sink for SureSink {
    ghost written = { λ sink. Some sink.bytes.items };

    ghost faults = { λ _. 0 };

    fn write(&mut self, bytes: &[u8]) -> Result<usize, SinkAnswer> {
        match self.bytes.extend_from_slice(bytes) {
            Ok(()) => Ok(bytes.len()),
            Err(_) => Err(SinkAnswer::Memory),
        }
    }
}
