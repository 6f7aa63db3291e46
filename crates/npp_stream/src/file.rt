//! The check of a file, which is taken by pieces from its beginning on until a piece has no bytes.

ghost use Rattle.std.specs.Prelude.{◌≡◌, ℕ, List, IfOk, length};
ghost use Rattle.npp_check.specs.Verdict.{pair_value};
ghost use Rattle.npp_stream.specs.TextVerdicts.{AnswersFile, HasFileCause, IsAcceptedText, MeasuresFile};

use crate::refusal::FileRefusal;
use crate::stream::TextCheck;
use npp_net::Instance;
use npp_outside::Shelf;
use npp_tree::Pair;
use std::alloc::Global;

/// How many bytes are asked for at a time.
const PIECE: usize = 65_536;

/// How many bytes a certificate may have.
const LIMIT: u64 = 1_099_511_627_776;

/// The pair of both values, where the bytes of the file are the text of a certificate for the instance; or why not.
///
/// Each line is judged before more bytes are asked for, so what is met first is answered, however short the pieces are that
/// the shelf gives. Bytes beyond the limit of 2^40 are not judged. A pair proves what it does in `check_text`. Where a commodity
/// has no toll-free walk the file is not asked for.
pub fn check_file<S: Shelf>(
    alloc: Global,
    instance: &Instance,
    shelf: &mut S,
    name: &str,
) -> Result<Pair, FileRefusal>
    ensures held { S.held shelf.new ≡ S.held shelf.old }
    ensures answer { AnswersFile instance.now (S.held shelf.old) name.now result }
    ensures proves { IfOk result (λ p. (bytes : List ℕ) × IsAcceptedText instance.now bytes (pair_value p)) }
    ensures measured { MeasuresFile instance.now result }
    ensures cause { HasFileCause (S.faults shelf.old) (S.faults shelf.new) (S.misses shelf.old) (S.misses shelf.new) result }
{
    let mut check = TextCheck::new(alloc, instance)?;
    let mut piece = [0u8; PIECE];
    let mut taken = 0u64;
    while taken <= LIMIT {
        let count = shelf.piece(name, taken, &mut piece)?;
        if count == 0 {
            return Ok(check.finish()?);
        }
        let within = count.min((LIMIT - taken) as usize);
        check.take(&piece[..within])?;
        taken += count as u64;
    }
    Err(FileRefusal::TooLong)
}
