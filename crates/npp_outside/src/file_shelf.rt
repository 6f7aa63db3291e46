//! The files of the system.
ghost use Rattle.std.specs.Prelude.{◌≡◌, ℕ, None};

use crate::{Shelf, ShelfAnswer};
use std::fs;
use std::io::{self, ErrorKind, Read, Seek, SeekFrom};
use std::rt::Files;

/// The system's files, each opened anew for each piece. It tells none of their bytes.
///
/// A file that is not found is missing; whatever else goes wrong is a fault.
#[derive(Drop)]
pub struct FileShelf<'a, R: Files> {
    rt: &'a R,
    faults: u64,
    misses: u64,
}

impl<'a, R: Files> FileShelf<'a, R> {
    /// The shelf of the files that the runtime opens.
    pub fn new(rt: &'a R) -> Self
        ensures faults { ⟦<FileShelf<'a, R> as Shelf>⟧.faults result ≡ 0 }
        ensures misses { ⟦<FileShelf<'a, R> as Shelf>⟧.misses result ≡ 0 }
    {
        FileShelf {
            rt,
            faults: 0,
            misses: 0,
        }
    }
}

impl<'a, R: Files> Shelf for FileShelf<'a, R> {
    ghost held = { λ _. None };

    ghost faults = { λ shelf. shelf.faults };

    ghost misses = { λ shelf. shelf.misses };

    fn piece(&mut self, name: &str, at: u64, into: &mut [u8]) -> Result<usize, ShelfAnswer> {
        match read_at(self.rt, name, at, into) {
            Ok(count) if count <= into.len() => Ok(count),
            Err(error) if error.kind() == ErrorKind::NotFound => {
                self.misses = self.misses.saturating_add(1);
                Err(ShelfAnswer::Missing)
            }
            _ => {
                self.faults = self.faults.saturating_add(1);
                Err(ShelfAnswer::Failed)
            }
        }
    }
}

fn read_at<R: Files>(rt: &R, name: &str, at: u64, into: &mut [u8]) -> io::Result<usize> {
    let mut file = fs::open(rt, name)?;
    file.seek(SeekFrom::Start(at))?;
    file.read(into)
}
