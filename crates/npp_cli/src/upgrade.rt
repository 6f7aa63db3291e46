//! The job `upgrade`: the certificate of a file in the second form, where it is accepted.
ghost use Rattle.std.specs.Prelude.{◌≡◌, IfOk};
ghost use Rattle.npp_bounds.specs.Spans.{AllHaveFreePaths};
ghost use Rattle.npp_cli.specs.declared.words.CertificateJob.TheVariants.{Upgrade};
ghost use Rattle.npp_cli.specs.Answer.{answer_text};
ghost use Rattle.npp_cli.specs.Answers.{AnswersFile, AnswersJudged};
ghost use Rattle.npp_cli.specs.Checked.{IsJudged, upgrade_limit};
ghost use Rattle.npp_cli.specs.Runs.{HasAnswerCause};

use crate::answers::{Answer, Output, no_free_path, not_taken};
use crate::check::{refused, rule_word};
use crate::take::take_file;
use npp_bounds::{BoundsRefusal, free_and_zero};
use npp_net::{Instance, Memory};
use npp_outside::Shelf;
use npp_stream::TextRefusal;
use npp_upgrade::upgrade;
use std::alloc::Global;

/// How many bytes a certificate that is upgraded may have.
const UPGRADE_LIMIT: usize = 67_108_864;

/// The answer about the certificate in the file of this name.
///
/// A commodity without a toll-free walk is refused before the file is asked for.
pub fn upgrade_certificate<S: Shelf>(
    alloc: Global,
    instance: &Instance,
    certificate: &str,
    shelf: &mut S,
) -> Result<Answer, Memory>
    ensures held { S.held shelf.new ≡ S.held shelf.old }
    ensures answer { IfOk result (λ answer. AnswersJudged Upgrade (S.held shelf.old) certificate.now instance.now answer.status (answer_text answer)) }
    ensures cause { IfOk result (λ answer. HasAnswerCause (S.faults shelf.old) (S.faults shelf.new) (S.misses shelf.old) (S.misses shelf.new) answer.status) }
{
    match free_and_zero(alloc, instance) {
        Ok(_spans) => upgrade_file(alloc, instance, certificate, shelf),
        Err(BoundsRefusal::NoFreePath(k)) => no_free_path(alloc, k),
        Err(BoundsRefusal::Memory) => Err(Memory),
    }
}

// The answer about the certificate in the file of this name, where each commodity has a toll-free walk.
//
// The file is taken whole before its first line is judged.
fn upgrade_file<S: Shelf>(
    alloc: Global,
    instance: &Instance,
    certificate: &str,
    shelf: &mut S,
) -> Result<Answer, Memory>
    requires { AllHaveFreePaths instance.now.arcs instance.now.commodities }
    ensures held { S.held shelf.new ≡ S.held shelf.old }
    ensures answer { IfOk result (λ answer. AnswersFile (IsJudged Upgrade instance.now) upgrade_limit (S.held shelf.old) certificate.now answer.status (answer_text answer)) }
    ensures cause { IfOk result (λ answer. HasAnswerCause (S.faults shelf.old) (S.faults shelf.new) (S.misses shelf.old) (S.misses shelf.new) answer.status) }
{
    match take_file(alloc, shelf, certificate, UPGRADE_LIMIT) {
        Ok(bytes) => upgraded(alloc, instance, &bytes),
        Err(refusal) => not_taken(alloc, certificate, refusal),
    }
}

// The answer about the bytes of a certificate file.
fn upgraded(alloc: Global, instance: &Instance, bytes: &[u8]) -> Result<Answer, Memory>
    requires { AllHaveFreePaths instance.now.arcs instance.now.commodities }
    ensures { IfOk result (λ answer. IsJudged Upgrade instance.now bytes.now answer.status (answer_text answer)) }
{
    match upgrade(alloc, instance, bytes) {
        Ok(text) => Ok(Answer {
            status: 0,
            output: Output::Bytes(text),
        }),
        Err(TextRefusal::Broken { line, rule }) => refused(alloc, line, rule_word(rule)),
        Err(TextRefusal::NoFreePath(k)) => no_free_path(alloc, k),
        Err(TextRefusal::Memory) => Err(Memory),
    }
}
