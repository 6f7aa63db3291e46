//! The lines of the tree: all nodes down to a depth, in preorder.

ghost use Rattle.std.specs.Prelude.{◌≤◌, IfOk};
ghost use Rattle.npp_tree.specs.Items.{HasShortLists};

use crate::roads::Roads;
use npp_check::{CheckRefusal, Checker};
use npp_frac::{Exact, Frac64};
use npp_net::Listed;
use npp_rows::{Mark, Multiplier, RowName};
use npp_tree::Item;
use std::alloc::{AllocError, Global};

/// A family of roads with the depth of its tree and the evidence of the nodes.
#[derive(Clone, Copy)]
pub struct Size {
    /// The commodities and the toll roads.
    pub roads: Roads,
    /// How deep the tree is, at most 20.
    pub depth: u32,
    /// Whether each node has a dual answer.
    pub dual: bool,
    ghost low: { depth ≤ 20 },
}

/// A node: its depth, and its leftmost leaf by its number from the left.
#[derive(Clone, Copy)]
struct Place {
    depth: u32,
    leaf: u32,
}

/// Hands the tree to a checker.
pub fn feed_tree(
    alloc: Global,
    checker: &mut Checker<Frac64>,
    size: Size,
) -> Result<(), CheckRefusal> {
    for leaf in 0..1u32 << size.depth {
        let new = leaf.trailing_zeros().min(size.depth);
        for depth in size.depth - new..size.depth + 1 {
            feed_node(alloc, checker, size, Place { depth, leaf })?;
        }
    }
    Ok(())
}

/// Hands a node to a checker: its evidence, and how it goes on.
fn feed_node(
    alloc: Global,
    checker: &mut Checker<Frac64>,
    size: Size,
    place: Place,
) -> Result<(), CheckRefusal> {
    if size.dual {
        feed_answer(checker, size, place)?;
    } else {
        checker.feed(Item::Basic(Mark::Large))?;
    }
    if place.depth >= size.depth {
        return checker.feed(Item::Leaf);
    }
    match split(alloc, size, place.depth) {
        Ok(item) => checker.feed(item),
        Err(_) => Err(CheckRefusal::Memory),
    }
}

/// A split that gives the toll roads to the first child.
fn split(alloc: Global, size: Size, commodity: u32) -> Result<Item<Frac64>, AllocError>
    ensures { IfOk result HasShortLists }
{
    let mut part = Vec::new(alloc);
    for path in 0..size.roads.tolls {
        part.push(path)?;
    }
    if part.len() > 10 {
        return Err(AllocError);
    }
    Ok(Item::Split {
        commodity,
        part: Listed::of(part),
    })
}

/// Whether a node leaves a commodity its toll-free road alone.
fn is_free(size: Size, place: Place, commodity: u32) -> bool {
    if commodity >= place.depth || commodity >= size.depth {
        return false;
    }
    (place.leaf >> (size.depth - 1 - commodity)) & 1 == 1
}

/// Hands the dual answer of a node to a checker.
fn feed_answer(
    checker: &mut Checker<Frac64>,
    size: Size,
    place: Place,
) -> Result<(), CheckRefusal> {
    let mut count = 0u32;
    for k in 0..size.roads.commodities {
        if !is_free(size, place, k) {
            count = size.roads.tolls.saturating_add(count).saturating_add(1);
        }
    }
    checker.feed(Item::Dual(count))?;
    for k in 0..size.roads.commodities {
        if !is_free(size, place, k) {
            feed_uses(checker, size.roads, k)?;
        }
    }
    for k in 0..size.roads.commodities {
        if !is_free(size, place, k) {
            feed_multiplier(checker, RowName::One(k), size.roads.worth(k))?;
        }
    }
    Ok(())
}

/// Hands the multipliers of what a commodity pays to a checker.
fn feed_uses(
    checker: &mut Checker<Frac64>,
    roads: Roads,
    commodity: u32,
) -> Result<(), CheckRefusal> {
    for toll in 0..roads.tolls {
        feed_multiplier(
            checker,
            RowName::Use(toll, commodity),
            roads.demand(commodity),
        )?;
    }
    Ok(())
}

/// Hands a multiplier to a checker.
fn feed_multiplier(
    checker: &mut Checker<Frac64>,
    row: RowName,
    value: u32,
) -> Result<(), CheckRefusal> {
    checker.feed(Item::Mult(Multiplier {
        row,
        value: Frac64::of_whole(i64::from(value)),
    }))
}
