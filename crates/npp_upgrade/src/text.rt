//! The text of a certificate in the second form.

ghost use Rattle.std.specs.Prelude.{IfOk, IfErr};
ghost use Rattle.npp_stream.specs.TextVerdicts.{IsTextRefusal};
ghost use Rattle.npp_upgrade.specs.Upgrade.{IsUpgrade};

use crate::splice::second_form;
use npp_net::Instance;
use npp_stream::{TextRefusal, check_text};
use std::alloc::Global;

/// The text of a certificate of an instance with the first line of the second form, and with the lines that name the instance
/// where they were missing; or why the certificate is not accepted.
///
/// What is answered is accepted too, and with the same pair of values. A certificate of the second form stays as it is.
pub fn upgrade(alloc: Global, instance: &Instance, bytes: &[u8]) -> Result<Vec<u8>, TextRefusal>
    ensures upgraded { IfOk result (λ text. IsUpgrade instance.now bytes.now text.items) }
    ensures refused { IfErr result (IsTextRefusal instance.now bytes.now) }
{
    let _pair = check_text(alloc, instance, bytes)?;
    match second_form(alloc, instance, bytes) {
        Ok(text) => Ok(text),
        Err(_) => Err(TextRefusal::Memory),
    }
}
