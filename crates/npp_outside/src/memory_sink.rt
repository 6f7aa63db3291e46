//! A sink in memory that takes few bytes at a time, and whose calls fail where it is told so.
ghost use Rattle.std.specs.Prelude.{◌≡◌, ◌≤◌, ◌↔◌, ℕ, List, [], Some, IfOk, IsErrOf, IsTrue, length, min};
ghost use Rattle.npp_outside.specs.Sink.{Writes, IsWriteCount, HasSinkCause};
ghost use Rattle.npp_outside.specs.Failing.{no_calls, next_fails, after_call};

use crate::calls::FailingCalls;
use crate::{Sink, SinkAnswer};
use std::alloc::Global;
use std::marker::Model;

/// A sink that keeps all bytes, for tests of what follows a fault: it takes at most so many in a call, and the calls whose
/// numbers it was told fail, and each is counted.
#[derive(Drop)]
pub struct MemorySink {
    bytes: Vec<u8>,
    most: usize,
    calls: FailingCalls,
}

impl Model for MemorySink {
    ghost use Rattle.std.specs.Prelude.{◌≤◌};
    ghost use Rattle.npp_outside.specs.Failing.{FailingSink};

    ghost Value = { FailingSink };

    ghost view = { λ s. record {
      bytes = s.bytes.items;
      most = s.most;
      calls = s.calls;
    } };

    ghost invariant = { λ s. 1 ≤ s.most };
}

impl MemorySink {
    /// A sink to which nothing was written yet, which takes at most `most` bytes in a call, and whose calls with the
    /// numbers `failing` fail. The first call is 1. It keeps the allocator, from which its writes take memory.
    pub fn new(alloc: Global, most: usize, failing: Vec<u64>) -> Self
        requires { 1 ≤ most }
        ensures written { ⟦<MemorySink as Sink>⟧.written result ≡ Some [] }
        ensures faults { ⟦<MemorySink as Sink>⟧.faults result ≡ 0 }
        ensures most { result.most ≡ most }
        ensures calls { result.calls ≡ no_calls failing.items }
    {
        MemorySink {
            bytes: Vec::new(alloc),
            most,
            calls: FailingCalls::new(failing),
        }
    }

    /// All bytes that were written so far.
    pub fn written(&self) -> &[u8]
        ensures { ⟦<MemorySink as Sink>⟧.written self.now ≡ Some result.now }
    {
        &self.bytes
    }
}

impl Sink for MemorySink {
    ghost written = { λ sink. Some sink.bytes };

    ghost faults = { λ sink. sink.calls.faults };

    fn write(&mut self, bytes: &[u8]) -> Result<usize, SinkAnswer>
        ensures count { IfOk result (IsWriteCount bytes.now) }
        ensures written { Writes (Some self.old.bytes) (Some self.new.bytes) bytes.now result }
        ensures cause { HasSinkCause self.old.calls.faults self.new.calls.faults result }

        // As many bytes are taken as a call may take.
        ensures taken { IfOk result (λ n. n ≡ min (length bytes.now) self.old.most) }
        ensures most { self.new.most ≡ self.old.most }

        // A call fails where its number was told, and nowhere else.
        ensures fails { IsErrOf result SinkAnswer.Failed ↔ IsTrue (next_fails self.old.calls) }
        ensures calls { self.new.calls ≡ after_call self.old.calls }
    {
        if self.calls.next_fails() {
            return Err(SinkAnswer::Failed);
        }
        let count = bytes.len().min(self.most);
        match self.bytes.extend_from_slice(&bytes[..count]) {
            Ok(()) => Ok(count),
            Err(_) => Err(SinkAnswer::Memory),
        }
    }
}
