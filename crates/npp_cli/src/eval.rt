//! The job `eval`: what given tolls earn, and the walks that travellers take under them.
ghost use Rattle.std.specs.Prelude.{◌≡◌, IfOk};
ghost use Rattle.npp_frac.specs.Wide.{value_of_wide};
ghost use Rattle.npp_eval.specs.Evaluated.{evaluation_value};
ghost use Rattle.npp_eval.specs.Text.{evaluation_text};
ghost use Rattle.npp_cli.specs.Answer.{IsAnswer, answer_text};
ghost use Rattle.npp_cli.specs.Evaluated.{AnswersEvalRefusal, AnswersTolls};
ghost use Rattle.npp_cli.specs.Answers.{AnswersFile, AnswersWithTolls, tolls_limit};
ghost use Rattle.npp_cli.specs.Runs.{HasAnswerCause};

use crate::answers::{
    Answer, faulty_line, no_free_path, not_taken, refused_tolls, too_many_labels, too_many_paths,
    too_wide,
};
use crate::take::take_file;
use npp_eval::{EvalRefusal, Evaluation, evaluate_text, evaluation_text};
use npp_frac::Frac128;
use npp_net::{Instance, Memory};
use npp_outside::Shelf;
use npp_reader::{ReadRefusal, read};
use std::alloc::Global;

/// How many bytes a tolls file may have.
const TOLLS_LIMIT: usize = 65_536;

/// The answer about the tolls of the file of this name for the instance that the bytes stand for.
pub fn eval_on_bytes<S: Shelf>(
    alloc: Global,
    bytes: &[u8],
    tolls: &str,
    shelf: &mut S,
) -> Result<Answer, Memory>
    ensures held { S.held shelf.new ≡ S.held shelf.old }
    ensures answer { IfOk result (λ answer. AnswersWithTolls (S.held shelf.old) tolls.now bytes.now answer.status (answer_text answer)) }
    ensures cause { IfOk result (λ answer. HasAnswerCause (S.faults shelf.old) (S.faults shelf.new) (S.misses shelf.old) (S.misses shelf.new) answer.status) }
{
    match read(alloc, bytes) {
        Ok(document) => eval_on_instance(alloc, &document.instance, tolls, shelf),
        Err(ReadRefusal::Line { line, kind }) => faulty_line(alloc, line, kind.word()),
        Err(ReadRefusal::Memory) => Err(Memory),
    }
}

// The answer about the tolls of the file of this name for an instance.
fn eval_on_instance<S: Shelf>(
    alloc: Global,
    instance: &Instance,
    tolls: &str,
    shelf: &mut S,
) -> Result<Answer, Memory>
    ensures held { S.held shelf.new ≡ S.held shelf.old }
    ensures answer { IfOk result (λ answer. AnswersFile (AnswersTolls instance.now) tolls_limit (S.held shelf.old) tolls.now answer.status (answer_text answer)) }
    ensures cause { IfOk result (λ answer. HasAnswerCause (S.faults shelf.old) (S.faults shelf.new) (S.misses shelf.old) (S.misses shelf.new) answer.status) }
{
    match take_file(alloc, shelf, tolls, TOLLS_LIMIT) {
        Ok(bytes) => eval(alloc, instance, &bytes),
        Err(refusal) => not_taken(alloc, tolls, refusal),
    }
}

// The answer about the bytes of a tolls file.
fn eval(alloc: Global, instance: &Instance, bytes: &[u8]) -> Result<Answer, Memory>
    ensures { IfOk result (λ answer. AnswersTolls instance.now bytes.now answer.status (answer_text answer)) }
{
    match evaluate_text(alloc, instance, bytes) {
        Ok(evaluation) => replied(alloc, &evaluation),
        Err(refusal) => not_replied(alloc, refusal),
    }
}

// What tolls earn, and the walks that are taken under them.
fn replied(alloc: Global, evaluation: &Evaluation<Frac128>) -> Result<Answer, Memory>
    ensures { IfOk result (IsAnswer 0 (evaluation_text (evaluation_value value_of_wide evaluation.now))) }
{
    let text = evaluation_text(alloc, evaluation)?;
    Ok(Answer::with_text(0, text))
}

// Why it is not said what tolls earn.
fn not_replied(alloc: Global, refusal: EvalRefusal) -> Result<Answer, Memory>
    ensures { IfOk result (λ answer. AnswersEvalRefusal refusal answer.status (answer_text answer)) }
{
    match refusal {
        EvalRefusal::Line(line) => refused_tolls(alloc, line),
        EvalRefusal::NoFreePath(k) => no_free_path(alloc, k),
        EvalRefusal::TooManyLabels(k) => too_many_labels(alloc, k),
        EvalRefusal::TooManyPaths(k) => too_many_paths(alloc, k),
        EvalRefusal::Overflow(k) => too_wide(alloc, k),
        EvalRefusal::Memory => Err(Memory),
    }
}
