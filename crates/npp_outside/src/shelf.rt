//! Where files are read.
ghost use Rattle.std.specs.Prelude.{◌≡◌, ◌≤◌, ℕ, Option, IfOk, length};
ghost use Rattle.npp_outside.specs.Shelf.{Files, GivesPiece, HasShelfCause};

/// Why a shelf gave no bytes.
#[derive(Clone, Copy, Debug, PartialEq, Eq)]
pub enum ShelfAnswer {
    /// The shelf has no file of the name.
    Missing,
    /// Reading failed for any other cause.
    Failed,
}

/// A place from which files are read by name.
///
/// No call changes a file. The two counts never fall, and stop at `u64::MAX`.
pub trait Shelf {
    /// The files with their bytes, where the shelf tells them.
    ghost held: { Self → Option Files };

    /// How many calls have failed.
    ghost faults: { Self → ℕ };

    /// How many calls have asked for a name that is not there.
    ghost misses: { Self → ℕ };

    /// Reads bytes of the file `name`, from the place `at` on, into the front of `into`, and answers how many.
    ///
    /// Where the shelf tells its files, 0 comes only where `into` is empty or `at` is not before the end of the file.
    /// `Missing` and `Failed` come only where `misses` or `faults` was counted up in this call.
    fn piece(&mut self, name: &str, at: u64, into: &mut [u8]) -> Result<usize, ShelfAnswer>
        ensures held { held self.new ≡ held self.old }
        ensures count { IfOk result (λ n. n ≤ length into.new) }
        ensures bytes { GivesPiece (held self.old) name.now at (length into.new) into.new result }
        ensures cause { HasShelfCause (faults self.old) (faults self.new) (misses self.old) (misses self.new) result };
}
