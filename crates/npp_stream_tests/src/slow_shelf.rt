//! A shelf that gives few bytes at a time, and fails after a while.
ghost use Rattle.std.specs.Prelude.{None};

use npp_outside::{Shelf, ShelfAnswer};

/// One file, whatever its name. A call gives at most `most` bytes, and each call after the first `good` ones fails.
#[derive(Drop)]
pub struct SlowShelf<'a> {
    bytes: &'a [u8],
    most: usize,
    good: u64,
    calls: u64,
    faults: u64,
}

impl<'a> SlowShelf<'a> {
    /// A shelf of which nothing was asked yet.
    pub fn new(bytes: &'a [u8], most: usize, good: u64) -> Self {
        SlowShelf {
            bytes,
            most,
            good,
            calls: 0,
            faults: 0,
        }
    }

    /// How many calls gave bytes, or none at the end of the file.
    pub fn calls(&self) -> u64 {
        self.calls
    }
}

impl<'a> Shelf for SlowShelf<'a> {
    ghost held = { λ _. None };

    ghost faults = { λ shelf. shelf.faults };

    ghost misses = { λ _. 0 };

    fn piece(&mut self, _name: &str, at: u64, into: &mut [u8]) -> Result<usize, ShelfAnswer> {
        if self.calls >= self.good {
            self.faults = self.faults.saturating_add(1);
            return Err(ShelfAnswer::Failed);
        }
        self.calls = self.calls.saturating_add(1);
        if at >= self.bytes.len() as u64 {
            return Ok(0);
        }
        let rest = &self.bytes[at as usize..];
        let count = rest.len().min(into.len()).min(self.most);
        into[..count].copy_from_slice(&rest[..count]);
        Ok(count)
    }
}
