//! A file is taken by pieces, from its beginning on, until a piece has no bytes.
ghost use Rattle.std.specs.Prelude.{◌≡◌, ◌<◌, ◌≤◌, ◌^◌, ℕ, IfOk, length};
ghost use Rattle.npp_cli.specs.Taken.{Takes, HasTakeCause};

use npp_outside::{Shelf, ShelfAnswer};
use std::alloc::Global;

/// Why a file was not taken.
#[derive(Clone, Copy, Debug, PartialEq, Eq)]
pub enum TakeRefusal {
    /// The shelf has no such file.
    Missing,
    /// The shelf failed.
    Failed,
    /// The file has more bytes than the limit.
    TooLong,
    /// There is no memory for it.
    Memory,
}

/// How many bytes are asked for at a time.
const PIECE: usize = 65_536;

/// All the bytes of a file, where they are at most `limit`.
///
/// There is room for all of them from the start on, so that no byte is moved twice.
pub fn take_file<S: Shelf>(
    alloc: Global,
    shelf: &mut S,
    name: &str,
    limit: usize,
) -> Result<Vec<u8>, TakeRefusal>
    requires { limit < 2 ^ 48 }
    ensures held { S.held shelf.new ≡ S.held shelf.old }
    ensures within { IfOk result (λ bytes. length bytes.items ≤ limit) }
    ensures bytes { Takes limit (S.held shelf.old) name.now result }
    ensures cause { HasTakeCause (S.faults shelf.old) (S.faults shelf.new) (S.misses shelf.old) (S.misses shelf.new) result }
{
    let Ok(mut taken) = Vec::with_capacity(alloc, limit + PIECE) else {
        return Err(TakeRefusal::Memory);
    };
    let mut piece = [0u8; PIECE];
    while taken.len() <= limit {
        let count = match shelf.piece(name, taken.len() as u64, &mut piece) {
            Ok(count) => count,
            Err(ShelfAnswer::Missing) => return Err(TakeRefusal::Missing),
            Err(ShelfAnswer::Failed) => return Err(TakeRefusal::Failed),
        };
        if count == 0 {
            return Ok(taken);
        }
        if taken.extend_from_slice(&piece[..count]).is_err() {
            return Err(TakeRefusal::Memory);
        }
    }
    Err(TakeRefusal::TooLong)
}
