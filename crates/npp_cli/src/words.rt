//! The job that the words of the command line ask for.
ghost use Rattle.std.specs.Prelude.{◌≡◌, ◌≤◌, ℕ, MatchOption, IfOk, IfSome, None, Some};
ghost use Rattle.std.specs.List.{list_all};
ghost use Rattle.std.specs.Char.{is_ascii_digit};
ghost use Rattle.npp_words.specs.Given.{given_value, texts};
ghost use Rattle.npp_cli.specs.Words.{job_of, job_in, job_for_number, job_for_one, job_for_two, job_meant, number_of, IsWithinDigits};

use npp_net::Memory;
use npp_words::{Given, WordsRefusal, given_words};
use std::alloc::Global;

/// What is asked of the instance in a file.
#[derive(Clone, Copy, Debug, PartialEq, Eq)]
pub enum FileJob {
    /// Tolls, a cheapest walk for each commodity, and what bounds the revenue from both sides.
    Solve {
        /// How many nodes the search may open.
        budget: u32,
        /// Whether the report alone is wanted, and not the whole certificate.
        brief: bool,
    },
    /// The two least costs of each commodity, and the basic bound.
    Bounds,
    /// The useful paths of each commodity.
    Paths,
}

/// What is asked of the certificate in a file, for the instance in another.
#[derive(Clone, Copy, Debug, PartialEq, Eq)]
pub enum CertificateJob {
    /// Whether it is accepted, and which two values it then proves.
    Check,
    /// The certificate in the second form, which names the instance.
    Upgrade,
}

/// A job, with the words that say for what it is done.
#[derive(Clone, Copy)]
pub enum Command<'w> {
    /// A job for the file of this name.
    OnFile(FileJob, &'w str),
    /// What the tolls of the second file earn in the instance of the first.
    Evaluate(&'w str, &'w str),
    /// A job for the instance in the first file and the certificate in the second.
    OnCertificate(CertificateJob, &'w str, &'w str),
    /// The generated instance of this number.
    Generate(u32),
    /// What a search of so many nodes finds of the generated instance of this number, which stands first.
    Demonstrate(u32, u32),
}

/// The job that the words ask for, the program's own name being the first of them. None where they ask for none.
pub fn command_of<'w>(alloc: Global, words: &'w [String]) -> Result<Option<Command<'w>>, Memory>
    ensures job { IfOk result (λ found. MatchOption
        found
        (job_of (texts words.now) ≡ None)
        (λ command. job_of (texts words.now) ≡ Some (job_meant command))) }
    ensures within { IfOk result (λ found. IfSome found IsWithinDigits) }
{
    match given_words(alloc, words) {
        Ok(given) => Ok(command_in(given)),
        Err(WordsRefusal::Usage) => Ok(None),
        Err(WordsRefusal::Memory) => Err(Memory),
    }
}

// The job that what is given asks for.
fn command_in<'w>(given: Given<'w>) -> Option<Command<'w>>
    ensures job { MatchOption
        result
        (job_in (given_value given.entry) ≡ None)
        (λ command. job_in (given_value given.entry) ≡ Some (job_meant command)) }
    ensures within { IfSome result IsWithinDigits }
{
    match given.second {
        None => command_for_one(given.budget, given.brief, given.job, given.first),
        Some(second) => command_for_two(given.job, given.first, second),
    }
}

// The job of this name for one further word.
fn command_for_one<'w>(budget: u32, brief: bool, job: &str, first: &'w str) -> Option<Command<'w>>
    ensures job { MatchOption
        result
        (job_for_one budget brief job.now first.now ≡ None)
        (λ command. job_for_one budget brief job.now first.now ≡ Some (job_meant command)) }
    ensures within { IfSome result IsWithinDigits }
{
    if job == "solve" {
        return Some(Command::OnFile(FileJob::Solve { budget, brief }, first));
    }
    if job == "bounds" {
        return Some(Command::OnFile(FileJob::Bounds, first));
    }
    if job == "paths" {
        return Some(Command::OnFile(FileJob::Paths, first));
    }
    match number_of(first) {
        Some(number) => command_for_number(budget, job, number),
        None => None,
    }
}

// The job of this name that takes a number.
fn command_for_number<'w>(budget: u32, job: &str, number: u32) -> Option<Command<'w>>
    requires { number ≤ 999999 }
    ensures job { MatchOption
        result
        (job_for_number budget job.now number ≡ None)
        (λ command. job_for_number budget job.now number ≡ Some (job_meant command)) }
    ensures within { IfSome result IsWithinDigits }
{
    if job == "gen" {
        return Some(Command::Generate(number));
    }
    if job == "demo" {
        return Some(Command::Demonstrate(number, budget));
    }
    None
}

// The job of this name for two further words.
fn command_for_two<'w>(job: &str, first: &'w str, second: &'w str) -> Option<Command<'w>>
    ensures job { MatchOption
        result
        (job_for_two job.now first.now second.now ≡ None)
        (λ command. job_for_two job.now first.now second.now ≡ Some (job_meant command)) }
    ensures within { IfSome result IsWithinDigits }
{
    if job == "eval" {
        return Some(Command::Evaluate(first, second));
    }
    if job == "check" {
        return Some(Command::OnCertificate(CertificateJob::Check, first, second));
    }
    if job == "upgrade" {
        return Some(Command::OnCertificate(CertificateJob::Upgrade, first, second));
    }
    None
}

// The number of one to six decimal digits.
fn number_of(text: &str) -> Option<u32>
    ensures value { result ≡ number_of text.now }
    ensures within { IfSome result (λ number. number ≤ 999999) }
{
    if text.is_empty() || text.len() > 6 || !are_digits(text.as_bytes()) {
        return None;
    }
    text.parse::<u32>().ok()
}

fn are_digits(text: &[u8]) -> bool
    ensures { result ≡ list_all is_ascii_digit text.now }
{
    text.iter().all(|b| b.is_ascii_digit())
}
