//! The job `check`: whether the text of a file is a certificate for an instance, and which two values it then proves.
ghost use Rattle.std.specs.Prelude.{◌≡◌, ◌++◌, IfOk, codes};
ghost use Rattle.npp_check.specs.Verdict.{pair_value};
ghost use Rattle.npp_cli.specs.Answer.{IsAnswer, answer_text};
ghost use Rattle.npp_cli.specs.declared.words.CertificateJob.TheVariants.{Check};
ghost use Rattle.npp_cli.specs.Answers.{AnswersJudged};
ghost use Rattle.npp_cli.specs.Checked.{AnswersFileRefusal, accepted_text, refused_certificate_text};
ghost use Rattle.npp_cli.specs.RuleWords.{fault_word, rule_word};
ghost use Rattle.npp_cli.specs.Runs.{HasAnswerCause};

use crate::answers::{Answer, no_free_path, not_taken};
use crate::take::TakeRefusal;
use npp_check::Rule;
use npp_cover::CoverFault;
use npp_net::{Instance, Memory};
use npp_outside::Shelf;
use npp_report::write_fraction;
use npp_stream::{FileRefusal, check_file};
use npp_tree::Pair;
use std::alloc::Global;
use std::fmt::Write;

/// The answer about the certificate in the file of this name.
///
/// A commodity without a toll-free walk is refused before the file is asked for.
pub fn check<S: Shelf>(
    alloc: Global,
    instance: &Instance,
    certificate: &str,
    shelf: &mut S,
) -> Result<Answer, Memory>
    ensures held { S.held shelf.new ≡ S.held shelf.old }
    ensures answer { IfOk result (λ answer. AnswersJudged Check (S.held shelf.old) certificate.now instance.now answer.status (answer_text answer)) }
    ensures cause { IfOk result (λ answer. HasAnswerCause (S.faults shelf.old) (S.faults shelf.new) (S.misses shelf.old) (S.misses shelf.new) answer.status) }
{
    match check_file(alloc, instance, shelf, certificate) {
        Ok(pair) => accepted(alloc, pair),
        Err(refusal) => not_accepted(alloc, certificate, refusal),
    }
}

// A certificate proves these two values.
fn accepted(alloc: Global, pair: Pair) -> Result<Answer, Memory>
    ensures { IfOk result (IsAnswer 0 (accepted_text (pair_value pair))) }
{
    let mut text = String::from_str(alloc, "accepted lower ")?;
    write_fraction(alloc, &mut text, pair.lower)?;
    write!(text, " upper ")?;
    write_fraction(alloc, &mut text, pair.upper)?;
    writeln!(text)?;
    Ok(Answer::with_text(0, text))
}

// The file of this name is not accepted.
fn not_accepted(alloc: Global, name: &str, refusal: FileRefusal) -> Result<Answer, Memory>
    ensures { IfOk result (λ answer. AnswersFileRefusal name.now refusal answer.status (answer_text answer)) }
{
    match refusal {
        FileRefusal::NoFreePath(k) => no_free_path(alloc, k),
        FileRefusal::Missing => not_taken(alloc, name, TakeRefusal::Missing),
        FileRefusal::Failed => not_taken(alloc, name, TakeRefusal::Failed),
        FileRefusal::TooLong => not_taken(alloc, name, TakeRefusal::TooLong),
        FileRefusal::Broken { line, rule } => refused(alloc, line, rule_word(rule)),
        FileRefusal::Memory => Err(Memory),
    }
}

/// This is the first broken line of a certificate, and this the name of the first rule that it breaks.
pub fn refused(alloc: Global, line: u64, rule: &str) -> Result<Answer, Memory>
    ensures { IfOk result (IsAnswer 9 (refused_certificate_text line rule.now)) }
{
    let text = format!(in alloc; "refused certificate line {line} {rule}\n")?;
    Ok(Answer::with_text(9, text))
}

/// The name of a rule, with that of the fault where it is about a cover.
pub fn rule_word(rule: Rule) -> &'static str
    ensures { result.now ≡ rule_word rule }
{
    match rule {
        Rule::Text => "Text",
        Rule::Order => "Order",
        Rule::Tolls => "Tolls",
        Rule::Path => "Path",
        Rule::Cover(fault) => cover_word(fault),
        Rule::TooManyPaths => "TooManyPaths",
        Rule::Lower => "Lower",
        Rule::Cut => "Cut",
        Rule::Split => "Split",
        Rule::Evidence => "Evidence",
        Rule::Opened => "Opened",
        Rule::Upper => "Upper",
        Rule::Status => "Status",
        Rule::Overflow => "Overflow",
        Rule::Instance => "Instance",
    }
}

// The name of the rule about covers with that of its fault, without the numbers in it.
fn cover_word(fault: CoverFault) -> &'static str
    ensures { result.now ≡ codes "Cover " ++ fault_word fault }
{
    match fault {
        CoverFault::TooManyLabels => "Cover TooManyLabels",
        CoverFault::NotAStep(_) => "Cover NotAStep",
        CoverFault::RepeatedToll(_) => "Cover RepeatedToll",
        CoverFault::Useless(_) => "Cover Useless",
        CoverFault::BadFree => "Cover BadFree",
        CoverFault::MissingOrigin => "Cover MissingOrigin",
        CoverFault::NotClosed(_, _) => "Cover NotClosed",
        CoverFault::Memory => "Cover Memory",
    }
}
