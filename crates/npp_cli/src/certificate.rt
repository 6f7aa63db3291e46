//! The jobs on an instance and a certificate for it, in two files.
ghost use Rattle.std.specs.Prelude.{◌≡◌, IfOk};
ghost use Rattle.npp_cli.specs.Answer.{answer_text};
ghost use Rattle.npp_cli.specs.Answers.{AnswersJudged, AnswersWithCertificate};
ghost use Rattle.npp_cli.specs.Runs.{HasAnswerCause};

use crate::answers::{Answer, faulty_line};
use crate::check::check;
use crate::upgrade::upgrade_certificate;
use crate::words::CertificateJob;
use npp_net::{Instance, Memory};
use npp_outside::Shelf;
use npp_reader::{ReadRefusal, read};
use std::alloc::Global;

/// The answer about the certificate in the file of this name, for the instance that the bytes stand for.
pub fn certificate_on_bytes<S: Shelf>(
    alloc: Global,
    job: CertificateJob,
    bytes: &[u8],
    certificate: &str,
    shelf: &mut S,
) -> Result<Answer, Memory>
    ensures held { S.held shelf.new ≡ S.held shelf.old }
    ensures answer { IfOk result (λ answer. AnswersWithCertificate job (S.held shelf.old) certificate.now bytes.now answer.status (answer_text answer)) }
    ensures cause { IfOk result (λ answer. HasAnswerCause (S.faults shelf.old) (S.faults shelf.new) (S.misses shelf.old) (S.misses shelf.new) answer.status) }
{
    match read(alloc, bytes) {
        Ok(document) => {
            certificate_on_instance(alloc, job, &document.instance, certificate, shelf)
        }
        Err(ReadRefusal::Line { line, kind }) => faulty_line(alloc, line, kind.word()),
        Err(ReadRefusal::Memory) => Err(Memory),
    }
}

// The answer about the certificate in the file of this name, for an instance.
fn certificate_on_instance<S: Shelf>(
    alloc: Global,
    job: CertificateJob,
    instance: &Instance,
    certificate: &str,
    shelf: &mut S,
) -> Result<Answer, Memory>
    ensures held { S.held shelf.new ≡ S.held shelf.old }
    ensures answer { IfOk result (λ answer. AnswersJudged job (S.held shelf.old) certificate.now instance.now answer.status (answer_text answer)) }
    ensures cause { IfOk result (λ answer. HasAnswerCause (S.faults shelf.old) (S.faults shelf.new) (S.misses shelf.old) (S.misses shelf.new) answer.status) }
{
    match job {
        CertificateJob::Check => check(alloc, instance, certificate, shelf),
        CertificateJob::Upgrade => upgrade_certificate(alloc, instance, certificate, shelf),
    }
}
