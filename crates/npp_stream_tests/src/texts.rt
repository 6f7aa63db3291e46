//! What a check answers, as text.

use npp_check::Rule;
use npp_frac::print_fraction;
use npp_stream::FileRefusal;
use npp_tree::Pair;
use std::alloc::Global;
use std::test::Fail;

/// What a check of a file answers.
pub fn said(alloc: Global, answer: Result<Pair, FileRefusal>) -> Result<String, Fail> {
    match answer {
        Ok(pair) => {
            let lower = print_fraction(alloc, pair.lower)?;
            let upper = print_fraction(alloc, pair.upper)?;
            Ok(format!(in alloc; "accepted {lower} {upper}")?)
        }
        Err(
            FileRefusal::Broken {
                line,
                rule: Rule::Cover(_),
            },
        ) => Ok(format!(in alloc; "line {line} Cover")?),
        Err(FileRefusal::Broken { line, rule }) => Ok(format!(in alloc; "line {line} {rule:?}")?),
        Err(refusal) => Ok(format!(in alloc; "{refusal:?}")?),
    }
}
