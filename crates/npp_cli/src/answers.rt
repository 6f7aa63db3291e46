//! What is answered: a status, and the text that is written with it.
ghost use Rattle.std.specs.Prelude.{IfOk, string_bytes};
ghost use Rattle.npp_outside.specs.Sink.{WritesWhole, HasSinkCause};
ghost use Rattle.npp_cli.specs.Answer.{IsAnswer, answer_text, output_text};
ghost use Rattle.npp_cli.specs.Listed.{AnswersLimit};
ghost use Rattle.npp_cli.specs.NotTaken.{AnswersRefusal};
ghost use Rattle.npp_cli.specs.Texts.{usage_text, missing_text, shelf_fault_text, too_long_text, faulty_line_text, refused_tolls_text, overflow_text, no_free_path_text, too_many_labels_text, too_many_paths_text};

use crate::take::TakeRefusal;
use npp_cover::Cover;
use npp_frac::Frac64;
use npp_labels::CoversRefusal;
use npp_net::{Instance, Memory};
use npp_outside::{Sink, SinkAnswer, write_whole};
use npp_tree::Outcome;
use npp_writer::write_certificate;
use std::alloc::Global;

const USAGE: &str = "usage: npp solve FILE [--budget N] [--cuts N] [--numbers W] [--brief]
       npp check FILE CERTIFICATE
       npp bounds FILE
       npp paths FILE
       npp eval FILE TOLLS
       npp gen NUMBER
       npp demo NUMBER [--budget N] [--cuts N] [--numbers W]
       npp upgrade FILE CERTIFICATE
";

/// An outcome of a search, with what its certificate speaks of.
#[derive(Drop)]
pub struct Solution {
    /// The instance that was searched.
    pub instance: Instance,
    /// Its useful covers, one for each commodity in order.
    pub covers: Vec<Cover>,
    /// What the search gave.
    pub outcome: Outcome<Frac64>,
    /// Whether its report alone is wanted.
    pub brief: bool,
}

/// What is written.
#[derive(Drop)]
pub enum Output {
    /// This text.
    Text(String),
    /// These bytes.
    Bytes(Vec<u8>),
    /// The certificate of a solution, or its report alone.
    Solved(Solution),
}

/// What the program ends with and writes.
#[derive(Drop)]
pub struct Answer {
    /// The status that the program ends with.
    pub status: u8,
    /// All that it writes.
    pub output: Output,
}

impl Answer {
    /// The answer of this status that writes this text.
    pub fn with_text(status: u8, text: String) -> Answer
        ensures { IsAnswer status (string_bytes text) result }
    {
        Answer {
            status,
            output: Output::Text(text),
        }
    }
}

/// Writes an output. On an error a part of it was written that is not the whole.
pub fn write_output<O: Sink>(alloc: Global, output: &Output, out: &mut O) -> Result<(), SinkAnswer>
    ensures written { WritesWhole (O.written out.old) (O.written out.new) (output_text output.now) result }
    ensures cause { HasSinkCause (O.faults out.old) (O.faults out.new) result }
{
    match output {
        Output::Text(text) => write_whole(out, text.as_bytes()),
        Output::Bytes(bytes) => write_whole(out, bytes),
        Output::Solved(solution) => write_certificate(
            alloc,
            &solution.instance,
            &solution.covers,
            &solution.outcome,
            solution.brief,
            out,
        ),
    }
}

/// The words ask for no job.
pub fn usage(alloc: Global) -> Result<Answer, Memory>
    ensures { IfOk result (IsAnswer 2 usage_text) }
{
    let text = String::from_str(alloc, USAGE)?;
    Ok(Answer::with_text(2, text))
}

/// The instance text has a faulty line, of which this is the first, and this the name of its fault.
pub fn faulty_line(alloc: Global, line: u64, kind: &str) -> Result<Answer, Memory>
    ensures { IfOk result (IsAnswer 3 (faulty_line_text line kind.now)) }
{
    let text = format!(in alloc; "refused instance line {line} {kind}\n")?;
    Ok(Answer::with_text(3, text))
}

/// The file of this name was not taken.
pub fn not_taken(alloc: Global, name: &str, refusal: TakeRefusal) -> Result<Answer, Memory>
    ensures { IfOk result (λ answer. AnswersRefusal name.now refusal answer.status (answer_text answer)) }
{
    match refusal {
        TakeRefusal::Missing => missing(alloc, name),
        TakeRefusal::Failed => shelf_fault(alloc, name),
        TakeRefusal::TooLong => too_long(alloc, name),
        TakeRefusal::Memory => Err(Memory),
    }
}

// The shelf has no file of this name.
fn missing(alloc: Global, name: &str) -> Result<Answer, Memory>
    ensures { IfOk result (IsAnswer 4 (missing_text name.now)) }
{
    let text = format!(in alloc; "missing {name}\n")?;
    Ok(Answer::with_text(4, text))
}

// The shelf failed at the file of this name.
fn shelf_fault(alloc: Global, name: &str) -> Result<Answer, Memory>
    ensures { IfOk result (IsAnswer 5 (shelf_fault_text name.now)) }
{
    let text = format!(in alloc; "shelf fault {name}\n")?;
    Ok(Answer::with_text(5, text))
}

/// This is the first line of the tolls text that is not the line that must stand there.
pub fn refused_tolls(alloc: Global, line: u32) -> Result<Answer, Memory>
    ensures { IfOk result (IsAnswer 9 (refused_tolls_text line)) }
{
    let text = format!(in alloc; "refused tolls line {line}\n")?;
    Ok(Answer::with_text(9, text))
}

/// This is the first commodity of which a sum or product of the reply does not fit.
pub fn too_wide(alloc: Global, k: u32) -> Result<Answer, Memory>
    ensures { IfOk result (IsAnswer 8 (overflow_text k)) }
{
    let text = format!(in alloc; "refused overflow {k}\n")?;
    Ok(Answer::with_text(8, text))
}

/// This is the first commodity that has no toll-free walk.
pub fn no_free_path(alloc: Global, k: u32) -> Result<Answer, Memory>
    ensures { IfOk result (IsAnswer 10 (no_free_path_text k)) }
{
    let text = format!(in alloc; "refused no-free-path {k}\n")?;
    Ok(Answer::with_text(10, text))
}

/// A limit is passed.
pub fn over_limit(alloc: Global, refusal: CoversRefusal) -> Result<Answer, Memory>
    ensures { IfOk result (λ answer. AnswersLimit refusal answer.status (answer_text answer)) }
{
    match refusal {
        CoversRefusal::TooManyLabels(k) => too_many_labels(alloc, k),
        CoversRefusal::TooManyPaths(k) => too_many_paths(alloc, k),
        CoversRefusal::Memory => Err(Memory),
    }
}

/// This is the first commodity that passes a limit, and its useful labels are too many.
pub fn too_many_labels(alloc: Global, k: u32) -> Result<Answer, Memory>
    ensures { IfOk result (IsAnswer 11 (too_many_labels_text k)) }
{
    let text = format!(in alloc; "refused too-many-labels {k}\n")?;
    Ok(Answer::with_text(11, text))
}

/// This is the first commodity that passes a limit, and the useful paths up to it are too many.
pub fn too_many_paths(alloc: Global, k: u32) -> Result<Answer, Memory>
    ensures { IfOk result (IsAnswer 11 (too_many_paths_text k)) }
{
    let text = format!(in alloc; "refused too-many-paths {k}\n")?;
    Ok(Answer::with_text(11, text))
}

// The file of this name has more bytes than its limit.
fn too_long(alloc: Global, name: &str) -> Result<Answer, Memory>
    ensures { IfOk result (IsAnswer 12 (too_long_text name.now)) }
{
    let text = format!(in alloc; "refused too-long {name}\n")?;
    Ok(Answer::with_text(12, text))
}
