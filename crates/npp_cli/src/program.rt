//! The top call: the words are read, the job is done, and its text is written.
ghost use Rattle.std.specs.Prelude.{◌≡◌, ◌≤◌, ℕ, List, None, Some, IfOk};
ghost use Rattle.npp_outside.specs.Causes.{Rose};
ghost use Rattle.npp_outside.specs.Shelf.{Files, file_at};
ghost use Rattle.npp_net.specs.Network.{Network};
ghost use Rattle.npp_bounds.specs.Spans.{AllHaveFreePaths, AreSpans};
ghost use Rattle.npp_reader.specs.Canonical.{canonical_text};
ghost use Rattle.npp_cli.specs.Generated.{generated};
ghost use Rattle.npp_cli.specs.Texts.{usage_text};
ghost use Rattle.npp_words.specs.Given.{texts};
ghost use Rattle.npp_cli.specs.Words.{job_of, on_file, evaluate, on_certificate, generate, demonstrate};
ghost use Rattle.npp_cli.specs.Answer.{answer_text};
ghost use Rattle.npp_cli.specs.Answers.{Answers, AnswersContent, AnswersDemonstration, AnswersFile, AnswersInstance, AnswersOf, AnswersWithCertificate, AnswersWithTolls, IsDone, instance_limit, tolls_limit};
ghost use Rattle.npp_cli.specs.Checked.{limit_for};
ghost use Rattle.npp_cli.specs.Claims.{AnswersOnCertificate, AnswersTwoFiles, IsAsked, IsGiven, IsGivenTwo, NothingFailed, Prints, PrintsSaid, SaysVerdict, WasWritten};
ghost use Rattle.npp_cli.specs.Evaluated.{AnswersTolls};
ghost use Rattle.npp_cli.specs.Runs.{Runs, HasAnswerCause};

use crate::answers::{Answer, faulty_line, no_free_path, not_taken, usage, write_output};
use crate::certificate::certificate_on_bytes;
use crate::eval::eval_on_bytes;
use crate::generator::{answer_on_number, generated_text};
use crate::paths::paths;
use crate::solve::solve;
use crate::spans::bounds;
use crate::take::take_file;
use crate::words::{CertificateJob, Command, FileJob, command_of};
use npp_bounds::{BoundsRefusal, free_and_zero};
use npp_net::{Instance, Memory, Span};
use npp_outside::{Shelf, Sink, SinkAnswer};
use npp_reader::{Document, ReadRefusal, read};
use std::alloc::Global;

/// How many bytes an instance file may have.
const INSTANCE_LIMIT: usize = 4_194_304;

/// Does what the words ask, and answers the status with which the program ends.
///
/// The first word is the program's own name. Nothing is written before the answer is known, and then its text is all
/// that is written.
pub fn run<S: Shelf, O: Sink>(alloc: Global, words: &[String], shelf: &mut S, out: &mut O) -> u8
    ensures held { S.held shelf.new ≡ S.held shelf.old }

    // Missing, a fault of the shelf and a fault of the sink come only where they were counted.
    ensures missing { result ≡ 4 → Rose (S.misses shelf.old) (S.misses shelf.new) }
    ensures failed { result ≡ 5 → Rose (S.faults shelf.old) (S.faults shelf.new) }
    ensures sink { result ≡ 6 → Rose (O.faults out.old) (O.faults out.new) }

    // What is printed of an instance is true of all walks and of all tolls.
    ensures headline { (job : FileJob) (net : Network) → IsGiven job (texts words.now) (S.held shelf.old) net
        → NothingFailed result → PrintsSaid (IsDone job net) (O.written out.old) (O.written out.new) result }
    ensures evaluation { (net : Network) (tolls : List ℕ) → IsGivenTwo evaluate tolls_limit (texts words.now) (S.held shelf.old) net tolls
        → NothingFailed result → PrintsSaid (AnswersTolls net tolls) (O.written out.old) (O.written out.new) result }

    // A certificate is accepted exactly where its verdict is a pair, whoever wrote it, and then it proves both values. An
    // upgraded one is accepted with the same pair.
    ensures certificate { (job : CertificateJob) (net : Network) (certificate : List ℕ)
        → IsGivenTwo (on_certificate job) (limit_for job) (texts words.now) (S.held shelf.old) net certificate
        → AllHaveFreePaths net.arcs net.commodities
        → NothingFailed result → PrintsSaid (SaysVerdict job net certificate) (O.written out.old) (O.written out.new) result }

    // Each answer comes exactly by its cause, and its text is all that is written.
    ensures on_file { (job : FileJob) (name : List ℕ) (files : Files) → IsAsked (on_file job name) files (texts words.now) (S.held shelf.old)
        → NothingFailed result → PrintsSaid (AnswersContent (AnswersOf job) instance_limit name (file_at files name)) (O.written out.old) (O.written out.new) result }
    ensures on_two_files { (name tolls : List ℕ) (files : Files) → IsAsked (evaluate name tolls) files (texts words.now) (S.held shelf.old)
        → NothingFailed result → PrintsSaid (AnswersTwoFiles name tolls (file_at files name) (file_at files tolls)) (O.written out.old) (O.written out.new) result }
    ensures on_certificate { (job : CertificateJob) (name certificate : List ℕ) (files : Files)
        → IsAsked (on_certificate job name certificate) files (texts words.now) (S.held shelf.old)
        → NothingFailed result → PrintsSaid (AnswersOnCertificate job name certificate (file_at files name) (file_at files certificate)) (O.written out.old) (O.written out.new) result }
    ensures generated { (number : ℕ) → job_of (texts words.now) ≡ Some (generate number)
        → WasWritten result → Prints (canonical_text (generated number)) 0 (O.written out.old) (O.written out.new) result }
    ensures demonstration { (number budget : ℕ) → job_of (texts words.now) ≡ Some (demonstrate number budget)
        → WasWritten result → PrintsSaid (AnswersDemonstration number budget) (O.written out.old) (O.written out.new) result }
    ensures usage { job_of (texts words.now) ≡ None
        → WasWritten result → Prints usage_text 2 (O.written out.old) (O.written out.new) result }
    ensures usage_only { result ≡ 2 → job_of (texts words.now) ≡ None }

    // Whatever the outcome, what is written is a text that answers the words, or the beginning of one.
    ensures answer { Runs (texts words.now) (S.held shelf.old) (O.written out.old) (O.written out.new) result }
{
    match answer_to(alloc, words, shelf) {
        Ok(answer) => match write_output(alloc, &answer.output, out) {
            Ok(()) => answer.status,
            Err(SinkAnswer::Failed) => 6,
            Err(SinkAnswer::Memory) => 7,
        },
        Err(Memory) => 7,
    }
}

// The answer to the words.
fn answer_to<S: Shelf>(alloc: Global, words: &[String], shelf: &mut S) -> Result<Answer, Memory>
    ensures held { S.held shelf.new ≡ S.held shelf.old }
    ensures answer { IfOk result (λ answer. Answers (texts words.now) (S.held shelf.old) answer.status (answer_text answer)) }
    ensures cause { IfOk result (λ answer. HasAnswerCause (S.faults shelf.old) (S.faults shelf.new) (S.misses shelf.old) (S.misses shelf.new) answer.status) }
{
    match command_of(alloc, words)? {
        None => usage(alloc),
        Some(Command::OnFile(job, file)) => answer_on_file(alloc, job, file, shelf),
        Some(Command::Evaluate(file, tolls)) => answer_on_two_files(alloc, file, tolls, shelf),
        Some(Command::OnCertificate(job, file, certificate)) => {
            answer_on_certificate(alloc, job, file, certificate, shelf)
        }
        Some(Command::Generate(number)) => answer_on_number(alloc, number),
        Some(Command::Demonstrate(number, budget)) => demonstrate(alloc, number, budget),
    }
}

// What `solve --brief` answers about the text of the generated instance.
fn demonstrate(alloc: Global, number: u32, budget: u32) -> Result<Answer, Memory>
    requires { number ≤ 999999 }
    ensures { IfOk result (λ answer. AnswersDemonstration number budget answer.status (answer_text answer)) }
{
    let text = generated_text(alloc, number)?;
    let job = FileJob::Solve {
        budget,
        brief: true,
    };
    answer_on_bytes(alloc, job, text.as_bytes())
}

// The answer to a job for a file.
fn answer_on_file<S: Shelf>(
    alloc: Global,
    job: FileJob,
    file: &str,
    shelf: &mut S,
) -> Result<Answer, Memory>
    ensures held { S.held shelf.new ≡ S.held shelf.old }
    ensures answer { IfOk result (λ answer. AnswersFile (AnswersOf job) instance_limit (S.held shelf.old) file.now answer.status (answer_text answer)) }
    ensures cause { IfOk result (λ answer. HasAnswerCause (S.faults shelf.old) (S.faults shelf.new) (S.misses shelf.old) (S.misses shelf.new) answer.status) }
{
    match take_file(alloc, shelf, file, INSTANCE_LIMIT) {
        Ok(bytes) => answer_on_bytes(alloc, job, &bytes),
        Err(refusal) => not_taken(alloc, file, refusal),
    }
}

// The answer about the tolls of one file for the instance of another.
fn answer_on_two_files<S: Shelf>(
    alloc: Global,
    file: &str,
    tolls: &str,
    shelf: &mut S,
) -> Result<Answer, Memory>
    ensures held { S.held shelf.new ≡ S.held shelf.old }
    ensures answer { IfOk result (λ answer. AnswersFile (AnswersWithTolls (S.held shelf.old) tolls.now) instance_limit (S.held shelf.old) file.now answer.status (answer_text answer)) }
    ensures cause { IfOk result (λ answer. HasAnswerCause (S.faults shelf.old) (S.faults shelf.new) (S.misses shelf.old) (S.misses shelf.new) answer.status) }
{
    match take_file(alloc, shelf, file, INSTANCE_LIMIT) {
        Ok(bytes) => eval_on_bytes(alloc, &bytes, tolls, shelf),
        Err(refusal) => not_taken(alloc, file, refusal),
    }
}

// The answer to a job for the instance of one file and the certificate in another.
fn answer_on_certificate<S: Shelf>(
    alloc: Global,
    job: CertificateJob,
    file: &str,
    certificate: &str,
    shelf: &mut S,
) -> Result<Answer, Memory>
    ensures held { S.held shelf.new ≡ S.held shelf.old }
    ensures answer { IfOk result (λ answer. AnswersFile (AnswersWithCertificate job (S.held shelf.old) certificate.now) instance_limit (S.held shelf.old) file.now answer.status (answer_text answer)) }
    ensures cause { IfOk result (λ answer. HasAnswerCause (S.faults shelf.old) (S.faults shelf.new) (S.misses shelf.old) (S.misses shelf.new) answer.status) }
{
    match take_file(alloc, shelf, file, INSTANCE_LIMIT) {
        Ok(bytes) => certificate_on_bytes(alloc, job, &bytes, certificate, shelf),
        Err(refusal) => not_taken(alloc, file, refusal),
    }
}

// The answer to a job for the bytes of a file.
fn answer_on_bytes(alloc: Global, job: FileJob, bytes: &[u8]) -> Result<Answer, Memory>
    ensures { IfOk result (λ answer. AnswersOf job bytes.now answer.status (answer_text answer)) }
{
    match read(alloc, bytes) {
        Ok(document) => answer_on_document(alloc, job, document),
        Err(ReadRefusal::Line { line, kind }) => faulty_line(alloc, line, kind.word()),
        Err(ReadRefusal::Memory) => Err(Memory),
    }
}

// The answer to a job for what a text declares.
fn answer_on_document(alloc: Global, job: FileJob, document: Document) -> Result<Answer, Memory>
    ensures { IfOk result (λ answer. AnswersInstance job document.instance answer.status (answer_text answer)) }
{
    let Document { names: _, instance } = document;
    answer_on_instance(alloc, job, instance)
}

// The answer to a job for an instance.
fn answer_on_instance(alloc: Global, job: FileJob, instance: Instance) -> Result<Answer, Memory>
    ensures { IfOk result (λ answer. AnswersInstance job instance answer.status (answer_text answer)) }
{
    match free_and_zero(alloc, &instance) {
        Ok(spans) => done(alloc, job, instance, &spans),
        Err(BoundsRefusal::NoFreePath(k)) => no_free_path(alloc, k),
        Err(BoundsRefusal::Memory) => Err(Memory),
    }
}

// What the job says of the instance, whose spans these are.
fn done(alloc: Global, job: FileJob, instance: Instance, spans: &[Span]) -> Result<Answer, Memory>
    requires { AreSpans instance.arcs instance.commodities spans.now }
    ensures { IfOk result (λ answer. IsDone job instance answer.status (answer_text answer)) }
{
    match job {
        FileJob::Solve { budget, brief } => solve(alloc, instance, spans, budget, brief),
        FileJob::Bounds => bounds(alloc, &instance, spans),
        FileJob::Paths => paths(alloc, &instance, spans),
    }
}
