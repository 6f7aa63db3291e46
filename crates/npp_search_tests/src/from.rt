//! Searches from a node.

ghost use Rattle.std.specs.Prelude.{◌≤◌};
ghost use Rattle.npp_rows.specs.Limits.{path_total};
ghost use Rattle.npp_rows.specs.Lowering.{AreClosedCovers};

use crate::tree::write_tree;
use npp_cover::Cover;
use npp_fixtures::{
    Number, THREE_PAIRS, covers_of, family, fraction, instance_of, is_family, write_numbers,
};
use npp_frac::{Exact, Frac32, Frac64, Frac128, print_fraction};
use npp_net::Instance;
use npp_search::{BestBound, Depth, Grown, Picker, search_from};
use npp_tree::Bound;
use std::alloc::Global;
use std::test::Fail;

/// Where a search begins: the paths that its root allows, a bound or none for a node without outcomes, and what was earned before.
#[derive(Clone, Copy)]
struct From<'a> {
    parts: &'a [&'a [u32]],
    bound: Option<Number>,
    lower: i32,
}

/// What is grown as text: how many nodes are opened, the lower value, the tolls that earn it where there are any, and a line for
/// each node.
fn text_of<N: Exact>(alloc: Global, grown: &Grown<N>) -> Result<String, Fail> {
    let lower = print_fraction(alloc, grown.lower)?;
    let mut text = format!(in alloc; "{} {lower}", grown.opened)?;
    if let Some((tolls, _)) = &grown.best {
        text.push_str(" at")?;
        write_numbers(alloc, &mut text, tolls.values()).ok_or("no memory")?;
    }
    text.push('\n')?;
    write_tree(alloc, &mut text, &grown.tree)?;
    Ok(text)
}

/// What a search of the three pairs grows from a family with these parts.
fn grown<N: Exact, P: Picker>(
    alloc: Global,
    from: &From,
    budget: u32,
    picker: &mut P,
) -> Result<String, Fail> {
    let instance = instance_of(alloc, THREE_PAIRS)?;
    let covers = covers_of(alloc, &instance)?;
    let grown = grown_over::<N, P>(alloc, &instance, &covers, from, budget, picker)?;
    text_of(alloc, &grown)
}

/// What a search grows from a family with these parts.
fn grown_over<N: Exact, P: Picker>(
    alloc: Global,
    instance: &Instance,
    covers: &[Cover],
    from: &From,
    budget: u32,
    picker: &mut P,
) -> Result<Grown<N>, Fail>
    requires covers { AreClosedCovers instance.now covers.now }
    requires few { path_total covers.now ≤ 16777216 }
{
    let allowed = family(alloc, from.parts)?;
    if !is_family(covers, &allowed) {
        return Err("no family")?;
    }
    let bound = match from.bound {
        Some((num, den)) => Bound::At(fraction(num, den).ok_or("no fraction")?),
        None => Bound::Empty,
    };
    let lower = fraction(from.lower, 1).ok_or("no fraction")?;
    let grown = search_from(
        alloc, instance, covers, &allowed, bound, lower, budget, picker,
    )?;
    Ok(grown)
}

/// All paths of the three commodities.
const ALL: &[&[u32]] = &[&[0, 1], &[0, 1], &[0, 1]];

/// Only the third commodity has one path alone.
const THIRD_PAYS: From<'static> = From {
    parts: &[&[0, 1], &[0, 1], &[0]],
    bound: Some((78, 5)),
    lower: 15,
};

/// The search of the whole tree, with nothing earned before.
const FROM_NOTHING: From<'static> = From {
    parts: ALL,
    bound: Some((100, 1)),
    lower: 0,
};

/// With each picker and at each width.
#[test]
fn one_leaf_is_opened(rt: HostRuntime) -> Result<(), Fail> {
    let alloc = rt.alloc();
    let want = "1 15\ndual 15\n";
    let found = grown::<Frac64, BestBound>(alloc, &THIRD_PAYS, 7, &mut BestBound)?;
    assert_eq!(rt; found.as_str(), want);
    let found = grown::<Frac64, Depth>(alloc, &THIRD_PAYS, 7, &mut Depth)?;
    assert_eq!(rt; found.as_str(), want);
    let found = grown::<Frac32, BestBound>(alloc, &THIRD_PAYS, 7, &mut BestBound)?;
    assert_eq!(rt; found.as_str(), want);
    let found = grown::<Frac128, Depth>(alloc, &THIRD_PAYS, 7, &mut Depth)?;
    assert_eq!(rt; found.as_str(), want);
    Ok(())
}

/// What was earned before cuts nodes off; tolls stand only where more is earned than was given, also where they earn more than any
/// outcome of the opened node; a bound that was given is kept below.
#[test]
fn searches_from_nodes(rt: HostRuntime) -> Result<(), Fail> {
    let at = |parts, bound, lower| From {
        parts,
        bound,
        lower,
    };
    let rows: [(From, u32, &str); 11] = [
        (FROM_NOTHING, 0, "0 0\nopen 23\n"),
        (
            FROM_NOTHING,
            1,
            "1 12 at 6\ndual 78/5 split 2 1\nopen 14\nopen 78/5\n",
        ),
        (
            FROM_NOTHING,
            7,
            "2 15 at 3\ndual 78/5 split 2 1\nopen 14\ndual 15\n",
        ),
        (at(ALL, None, 0), 7, "0 0\nopen empty\n"),
        (at(ALL, Some((14, 1)), 14), 7, "0 14\nopen 14\n"),
        (
            at(ALL, Some((14, 1)), 13),
            7,
            "3 15 at 3\ndual 14 split 2 1\ndual 12\ndual 14\n",
        ),
        (
            at(&[&[1], &[0], &[0]], Some((100, 1)), 0),
            7,
            "1 0\nnone empty\n",
        ),
        (
            at(&[&[0], &[0], &[0]], Some((100, 1)), 0),
            7,
            "1 15 at 3\ninverse 15\n",
        ),
        (
            at(&[&[0], &[0], &[0]], Some((100, 1)), 15),
            7,
            "1 15\ninverse 15\n",
        ),
        (
            at(&[&[0], &[0], &[0]], Some((100, 1)), 16),
            7,
            "1 16\ninverse 15\n",
        ),
        (
            at(&[&[1], &[1], &[0, 1]], Some((100, 1)), 0),
            7,
            "1 8 at 8\ndual 0\n",
        ),
    ];
    for (from, budget, want) in rows {
        let found = grown::<Frac64, BestBound>(rt.alloc(), &from, budget, &mut BestBound)?;
        assert_eq!(rt; found.as_str(), want);
    }
    Ok(())
}
