//! The check of a text that lies in memory.

ghost use Rattle.std.specs.Prelude.{◌≡◌, Ok, IfOk, IfErr};
ghost use Rattle.npp_check.specs.Verdict.{pair_value};
ghost use Rattle.npp_stream.specs.TextVerdicts.{IsAcceptedText, IsTextVerdict, IsTextRefusal};

use crate::refusal::TextRefusal;
use crate::stream::TextCheck;
use npp_net::Instance;
use npp_tree::Pair;
use std::alloc::Global;

/// The pair of both values, where the bytes are the text of a certificate for the instance; or the first broken line.
///
/// A pair proves that the tolls and walks of the text are an outcome that earns the lower value, and that no outcome earns
/// more than the upper value, whoever wrote the text.
pub fn check_text(alloc: Global, instance: &Instance, bytes: &[u8]) -> Result<Pair, TextRefusal>
    ensures accepted { IfOk result (λ p. IsAcceptedText instance.now bytes.now (pair_value p)) }
    ensures verdict { IfOk result (λ p. IsTextVerdict instance.now bytes.now (Ok (pair_value p))) }
    ensures refused { IfErr result (IsTextRefusal instance.now bytes.now) }
{
    let mut check = TextCheck::new(alloc, instance)?;
    check.take(bytes)?;
    Ok(check.finish()?)
}
