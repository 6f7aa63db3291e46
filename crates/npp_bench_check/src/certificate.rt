//! A certificate, made while it is checked.

ghost use Rattle.std.specs.Prelude.{IfOk};
ghost use Rattle.npp_tree.specs.Items.{HasShortLists};

use crate::roads::Roads;
use crate::tree::{Size, feed_tree};
use npp_check::{CheckRefusal, Checker};
use npp_frac::{Exact, Frac64};
use npp_net::{ArcId, Listed};
use npp_tree::{Item, Status};
use std::alloc::{AllocError, Global};

/// What the check answers: both values by their numerators, as they are whole numbers.
#[derive(Clone, Copy)]
pub enum Answer {
    /// Both values.
    Accepted {
        /// What is earned.
        lower: i128,
        /// What nothing exceeds.
        upper: i128,
    },
    /// The line breaks a rule.
    Broken(u64),
    /// There is no such instance.
    NoInstance,
    /// Memory was wanting.
    Memory,
}

/// The answer to the certificate of a size.
pub fn judge(alloc: Global, size: Size) -> Answer {
    let Ok(instance) = size.roads.instance(alloc) else {
        return Answer::Memory;
    };
    let Some(instance) = instance else {
        return Answer::NoInstance;
    };
    let Ok(mut checker) = Checker::<Frac64>::new(alloc, &instance) else {
        return Answer::NoInstance;
    };
    match feed_all(alloc, &mut checker, size) {
        Ok(()) => {}
        Err(CheckRefusal::Broken { line, .. }) => return Answer::Broken(line),
        Err(CheckRefusal::Memory) => return Answer::Memory,
    }
    match checker.finish() {
        Ok(pair) => Answer::Accepted {
            lower: pair.lower.num(),
            upper: pair.upper.num(),
        },
        Err(CheckRefusal::Broken { line, .. }) => Answer::Broken(line),
        Err(CheckRefusal::Memory) => Answer::Memory,
    }
}

/// Hands all lines to a checker.
fn feed_all(alloc: Global, checker: &mut Checker<Frac64>, size: Size) -> Result<(), CheckRefusal> {
    feed_head(checker, size)?;
    for toll in 0..size.roads.tolls {
        checker.feed(Item::Toll {
            toll,
            value: Frac64::of_whole(0),
        })?;
    }
    for k in 0..size.roads.commodities {
        checker.feed(made(walk(alloc, size.roads, k))?)?;
    }
    for k in 0..size.roads.commodities {
        feed_cover(alloc, checker, size.roads, k)?;
    }
    checker.feed(Item::Cuts(0))?;
    checker.feed(Item::Tree)?;
    feed_tree(alloc, checker, size)?;
    checker.feed(Item::End)
}

/// An item, where there was memory for it.
fn made(item: Result<Item<Frac64>, AllocError>) -> Result<Item<Frac64>, CheckRefusal>
    requires { IfOk item HasShortLists }
    ensures { IfOk result HasShortLists }
{
    match item {
        Ok(item) => Ok(item),
        Err(_) => Err(CheckRefusal::Memory),
    }
}

/// Hands the head to a checker. Nothing is earned, and the root's basic bound is the upper value.
fn feed_head(checker: &mut Checker<Frac64>, size: Size) -> Result<(), CheckRefusal> {
    let mut upper = 0u32;
    for k in 0..size.roads.commodities {
        upper = upper.saturating_add(size.roads.worth(k));
    }
    checker.feed(Item::Header)?;
    checker.feed(Item::StatusIs(Status::Budget))?;
    checker.feed(Item::Width(64))?;
    checker.feed(Item::Lower(Frac64::of_whole(0)))?;
    checker.feed(Item::Upper(Frac64::of_whole(i64::from(upper))))?;
    checker.feed(Item::Opened((2u32 << size.depth).wrapping_sub(1)))
}

/// The walk of a commodity over the cheapest toll road.
fn walk(alloc: Global, roads: Roads, k: u32) -> Result<Item<Frac64>, AllocError>
    ensures { IfOk result HasShortLists }
{
    Ok(Item::Path {
        commodity: k,
        cost: 2,
        paid: Frac64::of_whole(0),
        arcs: Listed::of(vec![in alloc; ArcId(roads.approach(k)), ArcId(0)]?),
    })
}

/// Hands the cover of a commodity to a checker: the toll roads and its own.
fn feed_cover(
    alloc: Global,
    checker: &mut Checker<Frac64>,
    roads: Roads,
    k: u32,
) -> Result<(), CheckRefusal> {
    checker.feed(Item::Cover {
        commodity: k,
        labels: roads.tolls + 2,
    })?;
    checker.feed(Item::Start)?;
    checker.feed(Item::Step {
        parent: 0,
        arc: ArcId(roads.approach(k)),
    })?;
    for toll in 0..roads.tolls {
        checker.feed(Item::Step {
            parent: 1,
            arc: ArcId(toll),
        })?;
    }
    checker.feed(made(free(alloc, roads, k))?)
}

/// The toll-free road of a commodity.
fn free(alloc: Global, roads: Roads, k: u32) -> Result<Item<Frac64>, AllocError>
    ensures { IfOk result HasShortLists }
{
    Ok(Item::Free {
        arcs: Listed::of(vec![in alloc; ArcId(roads.free_road(k))]?),
    })
}
