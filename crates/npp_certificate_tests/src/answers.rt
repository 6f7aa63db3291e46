//! What the checker answers to certificates.

ghost use Rattle.npp_tree.specs.Items.{HasShortLists};

use crate::items::items_of;
use npp_check::{CheckRefusal, CheckedRefusal, check};
use npp_fixtures::{instance_of, with_lines};
use npp_frac::{Exact, Frac32, Frac64, Frac128, print_fraction};
use npp_net::Instance;
use npp_tree::{Item, Pair};
use std::alloc::Global;
use std::process::Abort;
use std::test::Fail;

/// The first and the last of some lines of a text, numbered from 1, and the lines that stand in their place.
pub(crate) type Change = (usize, usize, &'static str);

/// A certificate of a network: a text with changes, each of the text that those before it left.
#[derive(Clone, Copy)]
pub(crate) struct Certificate {
    /// The instance.
    pub network: &'static str,
    /// The text of which it is made.
    pub text: &'static str,
    /// What is changed, the last lines first, so that lines keep their numbers until they are changed.
    pub changes: &'static [Change],
}

/// The first and the last of some lines of a certificate, numbered from 1; the lines that stand in their place, where there are
/// any; and what the checker answers: `accepted` with both values, or the first broken line with its rule.
pub(crate) type Case = (usize, usize, &'static str, &'static str);

/// Expects the answers to the cases of a certificate, at each width.
pub(crate) fn expect_answers(
    rt: &impl Abort,
    alloc: Global,
    certificate: Certificate,
    cases: &[Case],
) -> Result<(), Fail> {
    let instance = instance_of(alloc, certificate.network)?;
    for case in cases {
        let text = changed(alloc, certificate, *case)?;
        expect_answer::<Frac32>(rt, alloc, &instance, text.as_str(), case.3)?;
        expect_answer::<Frac64>(rt, alloc, &instance, text.as_str(), case.3)?;
        expect_answer::<Frac128>(rt, alloc, &instance, text.as_str(), case.3)?;
    }
    Ok(())
}

/// Expects the answer to the case of a certificate at a width.
pub(crate) fn expect_at<N: Exact>(
    rt: &impl Abort,
    alloc: Global,
    certificate: Certificate,
    case: Case,
) -> Result<(), Fail> {
    let instance = instance_of(alloc, certificate.network)?;
    let text = changed(alloc, certificate, case)?;
    expect_answer::<N>(rt, alloc, &instance, text.as_str(), case.3)
}

/// Expects the answer to a certificate.
pub(crate) fn expect_answer<N: Exact>(
    rt: &impl Abort,
    alloc: Global,
    instance: &Instance,
    text: &str,
    wanted: &str,
) -> Result<(), Fail> {
    let given = answer::<N>(alloc, instance, text)?;
    assert_eq!(rt; given.as_str(), wanted, "{text}");
    Ok(())
}

/// Expects the answer to the case of a certificate where one more item stands behind the last line.
pub(crate) fn expect_with(
    rt: &impl Abort,
    alloc: Global,
    certificate: Certificate,
    case: Case,
    item: Item<Frac128>,
) -> Result<(), Fail>
    requires { HasShortLists item }
{
    let instance = instance_of(alloc, certificate.network)?;
    let text = changed(alloc, certificate, case)?;
    let mut items = items_of::<Frac128>(alloc, text.as_str())?;
    items.push(item)?;
    let given = told(alloc, check(alloc, &instance, items))?;
    assert_eq!(rt; given.as_str(), case.3);
    Ok(())
}

/// The text of a certificate with the lines of a case replaced.
fn changed(alloc: Global, certificate: Certificate, case: Case) -> Result<String, Fail> {
    let mut text = String::from_str(alloc, certificate.text)?;
    for change in certificate.changes {
        text = with(alloc, text.as_str(), *change)?;
    }
    with(alloc, text.as_str(), (case.0, case.1, case.2))
}

/// The text with a change made. The lines of a change have no line feed behind the last.
fn with(alloc: Global, text: &str, change: Change) -> Result<String, Fail> {
    let (first, last, stead) = change;
    let mut lines = String::from_str(alloc, stead)?;
    if !lines.is_empty() {
        lines.push('\n')?;
    }
    Ok(with_lines(alloc, text, first, last, lines.as_str())?)
}

/// What the checker answers to a certificate.
fn answer<N: Exact>(alloc: Global, instance: &Instance, text: &str) -> Result<String, Fail> {
    let items = items_of::<N>(alloc, text)?;
    told(alloc, check(alloc, instance, items))
}

/// The text of an answer.
fn told(alloc: Global, answer: Result<Pair, CheckedRefusal>) -> Result<String, Fail> {
    match answer {
        Ok(pair) => accepted(alloc, pair),
        Err(CheckedRefusal::Check(refusal)) => refused(alloc, refusal),
        Err(CheckedRefusal::Start(refusal)) => Ok(format!(in alloc; "{refusal:?}")?),
    }
}

/// The text of a pair.
fn accepted(alloc: Global, pair: Pair) -> Result<String, Fail> {
    let lower = print_fraction(alloc, pair.lower)?;
    let upper = print_fraction(alloc, pair.upper)?;
    Ok(format!(in alloc; "accepted {lower} {upper}")?)
}

/// The text of a refusal.
fn refused(alloc: Global, refusal: CheckRefusal) -> Result<String, Fail> {
    match refusal {
        CheckRefusal::Broken { line, rule } => Ok(format!(in alloc; "{line} {rule:?}")?),
        CheckRefusal::Memory => Err(Fail::from("memory is wanting")),
    }
}
