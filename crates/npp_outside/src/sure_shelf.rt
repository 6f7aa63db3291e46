//! A shelf in memory that never fails.
ghost use Rattle.std.specs.Prelude.{◌≡◌, ◌≤◌, ℕ, MatchOption, Some, None, length};
ghost use Rattle.npp_outside.specs.Shelf.{files_of, file_at, IsPiece, NamesDiffer};

use crate::{Shelf, ShelfAnswer};

/// Files in memory. Every name that is not missing is read, so `faults` is 0 for good.
#[derive(Drop)]
pub struct SureShelf {
    files: Vec<(String, Vec<u8>)>,
    misses: u64,
}

impl SureShelf {
    /// A shelf of these files, each a name with its bytes. No two have the same name.
    pub fn new(files: Vec<(String, Vec<u8>)>) -> Self
        requires { NamesDiffer (files_of files.items) }
        ensures held { ⟦<SureShelf as Shelf>⟧.held result ≡ Some (files_of files.items) }
        ensures misses { ⟦<SureShelf as Shelf>⟧.misses result ≡ 0 }
    {
        SureShelf { files, misses: 0 }
    }
}

impl Shelf for SureShelf {
    ghost held = { λ shelf. Some (files_of shelf.files.items) };

    ghost faults = { λ _. 0 };

    ghost misses = { λ shelf. shelf.misses };

    fn piece(&mut self, name: &str, at: u64, into: &mut [u8]) -> Result<usize, ShelfAnswer> {
        match find_file(&self.files, name) {
            Some(bytes) => Ok(copy_piece(bytes, at, into)),
            None => {
                self.misses = self.misses.saturating_add(1);
                Err(ShelfAnswer::Missing)
            }
        }
    }
}

// The bytes of the file of this name.
fn find_file<'a>(files: &'a [(String, Vec<u8>)], name: &str) -> Option<&'a [u8]>
    ensures { MatchOption
        result
        (file_at (files_of files.now) name.now ≡ None)
        (λ bytes. file_at (files_of files.now) name.now ≡ Some bytes.now) }
{
    for file in files {
        if file.0.as_str() == name {
            return Some(&file.1);
        }
    }
    None
}

// Copies what stands from the place `at` on into the front of `into`, as much as it takes.
fn copy_piece(bytes: &[u8], at: u64, into: &mut [u8]) -> usize
    ensures within { result ≤ length into.new }
    ensures piece { IsPiece bytes.now at (length into.new) into.new result }
{
    if at >= bytes.len() as u64 {
        return 0;
    }
    let rest = &bytes[at as usize..];
    let count = rest.len().min(into.len());
    into[..count].copy_from_slice(&rest[..count]);
    count
}
