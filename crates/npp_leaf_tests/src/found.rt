//! What is found at a node, as text.

use npp_fixtures::{
    Cuts, are_cuts, covers_of, cuts_of, family, instance_of, is_family, write_numbers,
};
use npp_frac::{Exact, Frac32, Frac64, Frac128, print_fraction};
use npp_leaf::{LeafWork, evidence};
use npp_rows::CutRow;
use npp_tree::{Bound, Evidence, Point};
use std::alloc::Global;
use std::process::Abort;
use std::test::Fail;

/// The parts of a family, one for each commodity.
pub(crate) type Parts<'a> = &'a [&'a [u32]];

/// The kind of evidence as text.
fn kind<N: Exact>(alloc: Global, evidence: &Evidence<N>) -> Result<String, Fail> {
    let text = match evidence {
        Evidence::Unopened => format!(in alloc; "unopened")?,
        Evidence::Basic(mark) => format!(in alloc; "{mark:?}")?,
        Evidence::Dual(_) => format!(in alloc; "dual")?,
        Evidence::Farkas(_) => format!(in alloc; "farkas")?,
        Evidence::Inverse(_) => format!(in alloc; "inverse")?,
        Evidence::NoInverse(_) => format!(in alloc; "none")?,
    };
    Ok(text)
}

/// The tolls and the shares of a point as text.
fn write_point<N: Exact>(alloc: Global, text: &mut String, point: &Point<N>) -> Result<(), Fail> {
    text.push_str(" at")?;
    write_numbers(alloc, text, point.tolls.entries()).ok_or("no memory")?;
    for shares in point.shares.entries() {
        text.push_str(" |")?;
        write_numbers(alloc, text, shares.entries()).ok_or("no memory")?;
    }
    Ok(())
}

/// What is found as text: the kind of the evidence, its value, the point, and what the reply to best tolls earns.
fn text_of<N: Exact>(alloc: Global, work: &LeafWork<N>) -> Result<String, Fail> {
    let mut text = kind(alloc, &work.evidence)?;
    match work.value {
        Some(Bound::At(value)) => write!(text, " {}", print_fraction(alloc, value)?)?,
        Some(Bound::Empty) => text.push_str(" empty")?,
        None => (),
    }
    if let Some(point) = &work.point {
        write_point(alloc, &mut text, point)?;
    }
    if let Some((_, response)) = &work.best {
        write!(text, " earns {}", print_fraction(alloc, response.revenue)?)?;
    }
    Ok(text)
}

/// What is found at a node of the instance of a text.
pub(crate) fn found<N: Exact>(
    alloc: Global,
    text: &str,
    parts: Parts,
    cuts: &[CutRow<N>],
) -> Result<String, Fail> {
    let net = instance_of(alloc, text)?;
    let covers = covers_of(alloc, &net)?;
    let covers = covers.as_slice();
    let allowed = family(alloc, parts)?;
    if !is_family(covers, &allowed) || !are_cuts(covers, cuts) {
        return Err("no family, or no cuts")?;
    }
    let work = evidence(alloc, &net, covers, &allowed, cuts)?;
    text_of(alloc, &work)
}

/// What is found at a node with cuts that are written for every width.
fn found_with<N: Exact>(
    alloc: Global,
    text: &str,
    parts: Parts,
    cuts: Cuts,
) -> Result<String, Fail> {
    let cuts = cuts_of::<N>(alloc, cuts).ok_or("no cuts")?;
    found(alloc, text, parts, &cuts)
}

/// Expects what is found at a node at 32 bits, and what is found at 64 and at 128 bits.
pub(crate) fn expect(
    rt: &impl Abort,
    alloc: Global,
    text: &str,
    parts: Parts,
    cuts: Cuts,
    narrow: &str,
    wide: &str,
) -> Result<(), Fail> {
    let at_32 = found_with::<Frac32>(alloc, text, parts, cuts)?;
    assert_eq!(rt; at_32.as_str(), narrow);
    let at_64 = found_with::<Frac64>(alloc, text, parts, cuts)?;
    assert_eq!(rt; at_64.as_str(), wide);
    let at_128 = found_with::<Frac128>(alloc, text, parts, cuts)?;
    assert_eq!(rt; at_128.as_str(), wide);
    Ok(())
}
