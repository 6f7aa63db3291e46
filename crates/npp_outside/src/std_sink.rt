//! Standard output.
ghost use Rattle.std.specs.Prelude.{◌≡◌, ℕ, None};

use crate::{Sink, SinkAnswer};

/// Standard output, without a buffer. It tells nothing of what was written.
///
/// An error is a fault, and so is a write that takes none of the bytes although there are some.
#[derive(Drop)]
pub struct StdSink<'a, R: Print> {
    rt: &'a R,
    faults: u64,
}

impl<'a, R: Print> StdSink<'a, R> {
    /// The sink to which the runtime prints.
    pub fn new(rt: &'a R) -> Self
        ensures { ⟦<StdSink<'a, R> as Sink>⟧.faults result ≡ 0 }
    {
        StdSink { rt, faults: 0 }
    }
}

impl<'a, R: Print> Sink for StdSink<'a, R> {
    ghost written = { λ _. None };

    ghost faults = { λ sink. sink.faults };

    fn write(&mut self, bytes: &[u8]) -> Result<usize, SinkAnswer> {
        match self.rt.write_some(bytes) {
            Ok(count) if count > 0 || bytes.is_empty() => Ok(count),
            _ => {
                self.faults = self.faults.saturating_add(1);
                Err(SinkAnswer::Failed)
            }
        }
    }
}
