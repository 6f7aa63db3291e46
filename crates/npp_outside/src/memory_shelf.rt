//! A shelf in memory whose calls fail where it is told so.
ghost use Rattle.std.specs.Prelude.{◌≡◌, ◌≤◌, ◌↔◌, ℕ, Some, IfOk, IsErrOf, IsTrue, length};
ghost use Rattle.npp_outside.specs.Shelf.{files_of, GivesPiece, HasShelfCause, NamesDiffer};
ghost use Rattle.npp_outside.specs.Failing.{no_calls, next_fails, after_call};

use crate::calls::FailingCalls;
use crate::{Shelf, ShelfAnswer, SureShelf};
use std::marker::Model;

/// Files in memory, for tests of what follows a fault: the calls whose numbers it was told fail, and each is counted.
#[derive(Drop)]
pub struct MemoryShelf {
    shelf: SureShelf,
    calls: FailingCalls,
}

impl Model for MemoryShelf {
    ghost use Rattle.npp_outside.specs.Shelf.{files_of};
    ghost use Rattle.npp_outside.specs.Failing.{FailingShelf};

    ghost Value = { FailingShelf };

    ghost view = { λ s. record {
      files = files_of s.shelf.files.items;
      misses = s.shelf.misses;
      calls = s.calls;
    } };
}

impl MemoryShelf {
    /// A shelf of these files, each a name with its bytes, whose calls with the numbers `failing` fail.
    ///
    /// No two files have the same name. The first call is 1.
    pub fn new(files: Vec<(String, Vec<u8>)>, failing: Vec<u64>) -> Self
        requires { NamesDiffer (files_of files.items) }
        ensures held { ⟦<MemoryShelf as Shelf>⟧.held result ≡ Some (files_of files.items) }
        ensures faults { ⟦<MemoryShelf as Shelf>⟧.faults result ≡ 0 }
        ensures misses { ⟦<MemoryShelf as Shelf>⟧.misses result ≡ 0 }
        ensures calls { result.calls ≡ no_calls failing.items }
    {
        MemoryShelf {
            shelf: SureShelf::new(files),
            calls: FailingCalls::new(failing),
        }
    }
}

impl Shelf for MemoryShelf {
    ghost held = { λ shelf. Some shelf.files };

    ghost faults = { λ shelf. shelf.calls.faults };

    ghost misses = { λ shelf. shelf.misses };

    fn piece(&mut self, name: &str, at: u64, into: &mut [u8]) -> Result<usize, ShelfAnswer>
        ensures held { Some self.new.files ≡ Some self.old.files }
        ensures count { IfOk result (λ n. n ≤ length into.new) }
        ensures bytes { GivesPiece (Some self.old.files) name.now at (length into.new) into.new result }
        ensures cause { HasShelfCause self.old.calls.faults self.new.calls.faults self.old.misses self.new.misses result }

        // A call fails where its number was told, and nowhere else.
        ensures fails { IsErrOf result ShelfAnswer.Failed ↔ IsTrue (next_fails self.old.calls) }
        ensures calls { self.new.calls ≡ after_call self.old.calls }
    {
        if self.calls.next_fails() {
            return Err(ShelfAnswer::Failed);
        }
        self.shelf.piece(name, at, into)
    }
}
