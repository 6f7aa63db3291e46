//! The words of the command line, read with `clap`: a job, one or two further words, and the options `--budget` and
//! `--brief`.
//!
//! Which jobs there are, and what a job makes of its words, is decided above this crate.
#![tactic(auto)]

ghost use Rattle.std.specs.Prelude.{◌≡◌, [], IfOk, IsErrOf, Some, None, option_map};
ghost use Rattle.npp_words.specs.Given.{npp, texts, given_of, given_in, given_value, number_or, is_set};
ghost use Rattle.clap.specs.Words.{app_of, found_of, rows_of, fault_of, matches_of, first_of, one_of};

use clap::error::ErrorKind;
use clap::{Arg, ArgAction, ArgMatches, Command, value_parser};
use std::alloc::{AllocError, Global};

/// How many nodes a search may open where the words do not say it.
pub const DEFAULT_BUDGET: u32 = 1000;

/// What words give that are taken.
#[derive(Clone, Copy)]
pub struct Given<'w> {
    /// The name of the job. Any text: whether there is such a job is not judged here.
    pub job: &'w str,
    /// The word behind the job, such as the name of a file.
    pub first: &'w str,
    /// The word behind that, where there is one.
    pub second: Option<&'w str>,
    /// How many nodes a search may open: at most 100,000, and 1,000 where the words do not say it.
    pub budget: u32,
    /// Whether a report is wanted in place of a whole certificate.
    pub brief: bool,
}

/// Why nothing is given.
#[derive(Clone, Copy, Debug, PartialEq, Eq)]
pub enum WordsRefusal {
    /// The words are refused.
    Usage,
    /// There was no memory.
    Memory,
}

impl From<AllocError> for WordsRefusal {
    ghost use Rattle.npp_words.specs.declared.WordsRefusal.TheVariants.{Memory};

    ghost from_gives = { λ _ refusal. refusal ≡ Memory };

    fn from(_error: AllocError) -> WordsRefusal {
        WordsRefusal::Memory
    }
}

/// What the words give, the first of which is the program's name. They are refused exactly where `clap` refuses them
/// for another cause than memory.
pub fn given_words<'w>(alloc: Global, words: &'w [String]) -> Result<Given<'w>, WordsRefusal>
    ensures given { IfOk result (λ given. given_of (texts words.entry.now) ≡ Some (given_value given)) }
    ensures refused { IsErrOf result WordsRefusal.Usage → given_of (texts words.entry.now) ≡ None }
{
    let matches = matches_of(alloc, words)?;
    match given_by(&matches) {
        Some(given) => Ok(given),
        None => Err(WordsRefusal::Usage),
    }
}

// The command: a job and one or two further words, with two options. There is no help.
fn command<'w>(alloc: Global) -> Result<Command<'w>, AllocError>
    ensures { IfOk result (λ command. app_of command ≡ npp) }
{
    let job = Arg::new(alloc, "job").required(true);
    let first = Arg::new(alloc, "first").required(true);
    let second = Arg::new(alloc, "second");
    let budget = Arg::new(alloc, "budget")
        .long("budget")
        .value_parser(value_parser!(u32).range(..=100000));
    let brief = Arg::new(alloc, "brief")
        .long("brief")
        .action(ArgAction::SetTrue);
    Command::new(alloc, "npp")
        .disable_help_flag(true)
        .arg(job)?
        .arg(first)?
        .arg(second)?
        .arg(budget)?
        .arg(brief)
}

// The matches of the words.
fn matches_of<'w>(alloc: Global, words: &'w [String]) -> Result<ArgMatches<'w>, WordsRefusal>
    ensures taken { IfOk result (λ m. (fault_of npp (texts words.entry.now) ≡ [])
        × (rows_of (found_of m) ≡ matches_of npp (texts words.entry.now))) }
    ensures refused { IsErrOf result WordsRefusal.Usage → fault_of npp (texts words.entry.now) ≡ [] → ⊥ }
{
    let command = command(alloc)?;
    match command.try_get_matches_from(words) {
        Ok(matches) => Ok(matches),
        Err(error) => {
            if error.kind() == ErrorKind::OutOfMemory {
                Err(WordsRefusal::Memory)
            } else {
                Err(WordsRefusal::Usage)
            }
        }
    }
}

// What the matches give.
fn given_by<'w>(matches: &ArgMatches<'w>) -> Option<Given<'w>>
    ensures { option_map given_value result ≡ given_in (rows_of (found_of matches.now)) }
{
    let Some(job) = text(matches, "job") else {
        return None;
    };
    let Some(first) = text(matches, "first") else {
        return None;
    };
    Some(Given {
        job,
        first,
        second: text(matches, "second"),
        budget: number(matches, "budget", DEFAULT_BUDGET),
        brief: flag(matches, "brief"),
    })
}

// The first text of an argument.
fn text<'w>(matches: &ArgMatches<'w>, id: &str) -> Option<&'w str>
    ensures { option_map (λ s. s.now) result ≡ first_of id.now (rows_of (found_of matches.now)) }
{
    matches.get_str(id)
}

// The number of an argument, or another where it has none.
fn number(matches: &ArgMatches, id: &str, otherwise: u32) -> u32
    ensures { result ≡ number_or otherwise (one_of id.now (rows_of (found_of matches.now))) }
{
    match matches.get_one::<u32>(id) {
        Some(number) => number,
        None => otherwise,
    }
}

// Whether the flag was given.
fn flag(matches: &ArgMatches, id: &str) -> bool
    ensures { result ≡ is_set (one_of id.now (rows_of (found_of matches.now))) }
{
    match matches.get_one::<bool>(id) {
        Some(flag) => flag,
        None => false,
    }
}
