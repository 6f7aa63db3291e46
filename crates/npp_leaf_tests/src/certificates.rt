//! Certificates of the three commodities as items, whose nodes have the evidence that is found for them.

ghost use Rattle.std.specs.Prelude.{◌≤◌, IsTrue, All};
ghost use Rattle.npp_rows.specs.Limits.{path_total};
ghost use Rattle.npp_rows.specs.Lowering.{AreClosedCovers};
ghost use Rattle.npp_tree.specs.Items.{HasShortLists};

use crate::found::Parts;
use npp_cover::Cover;
use npp_fixtures::{
    Named, Number, are_cuts, covers_of, family, fraction, is_family, multipliers_of,
};
use npp_frac::Exact;
use npp_leaf::evidence;
use npp_net::{ArcId, Instance, Listed};
use npp_rows::{CutRow, Derivation, Multiplier, check_derivation};
use npp_tree::{Evidence, Item, Status};
use std::alloc::Global;
use std::test::Fail;

/// A cut, written for every width.
#[derive(Clone, Copy)]
pub(crate) enum Cut<'a> {
    /// No cut.
    Missing,
    /// That path 1 of the first commodity and path 0 of the third are not taken together, by these rows.
    Apart(Named<'a>),
    /// This combination of rows, rounded down.
    Round(Named<'a>),
}

/// What comes below a node.
#[derive(Clone, Copy)]
pub(crate) enum Below<'a> {
    /// Nothing.
    Leaf,
    /// Two nodes, of which the first allows this commodity these paths.
    Split(u32, &'a [u32]),
}

/// A certificate for the tolls that earn 15.
#[derive(Clone, Copy)]
pub(crate) struct Plan<'a> {
    /// How the search ended.
    pub(crate) status: Status,
    /// The upper value.
    pub(crate) upper: Number,
    /// Its cut.
    pub(crate) cut: Cut<'a>,
    /// Its nodes, in preorder.
    pub(crate) nodes: &'a [(Parts<'a>, Below<'a>)],
}

/// The lines above the tolls.
fn push_head<N: Exact>(items: &mut Vec<Item<N>>, plan: &Plan) -> Result<(), Fail> {
    let (num, den) = plan.upper;
    let opened = u32::try_from(plan.nodes.len())
        .ok()
        .ok_or("too many nodes")?;
    items.push(Item::Header)?;
    items.push(Item::StatusIs(plan.status))?;
    items.push(Item::Width(64))?;
    items.push(Item::Lower(N::of_whole(15)))?;
    items.push(Item::Upper(fraction(num, den).ok_or("no fraction")?))?;
    items.push(Item::Opened(opened))?;
    Ok(())
}

/// The toll 3 and the walks by the toll arc.
fn push_walks<N: Exact>(alloc: Global, items: &mut Vec<Item<N>>) -> Result<(), Fail> {
    items.push(Item::Toll {
        toll: 0,
        value: N::of_whole(3),
    })?;
    for k in 0..3_u32 {
        items.push(Item::Path {
            commodity: k,
            cost: 2,
            paid: N::of_whole(3),
            arcs: Listed::of(vec![in alloc; ArcId(2 * k + 1), ArcId(0)]?),
        })?;
    }
    Ok(())
}

/// The cover of a commodity: to the toll arc and along it, and beside it.
fn push_cover<N: Exact>(alloc: Global, items: &mut Vec<Item<N>>, k: u32) -> Result<(), Fail>
    requires { k ≤ 2 }
{
    items.push(Item::Cover {
        commodity: k,
        labels: 3,
    })?;
    items.push(Item::Start)?;
    items.push(Item::Step {
        parent: 0,
        arc: ArcId(2 * k + 1),
    })?;
    items.push(Item::Step {
        parent: 1,
        arc: ArcId(0),
    })?;
    items.push(Item::Free {
        arcs: Listed::of(vec![in alloc; ArcId(2 * k + 2)]?),
    })?;
    Ok(())
}

/// A line, and behind it a line for each multiplier.
fn push_multipliers<N: Exact>(
    items: &mut Vec<Item<N>>,
    head: Item<N>,
    multipliers: &[Multiplier<N>],
) -> Result<(), Fail> {
    items.push(head)?;
    for multiplier in multipliers {
        items.push(Item::Mult(*multiplier))?;
    }
    Ok(())
}

/// How many multipliers there are.
fn count<N>(multipliers: &[Multiplier<N>]) -> Result<u32, Fail> {
    Ok(
        u32::try_from(multipliers.len())
            .ok()
            .ok_or("too many multipliers")?,
    )
}

/// The lines of the cut, and its row.
fn push_cut<N: Exact>(
    alloc: Global,
    items: &mut Vec<Item<N>>,
    instance: &Instance,
    covers: &[Cover],
    cut: Cut,
) -> Result<Vec<CutRow<N>>, Fail>
    requires covers { AreClosedCovers instance.now covers.now }
    requires few { path_total covers.now ≤ 16777216 }
{
    let mut rows = Vec::new(alloc);
    let (named, conflict) = match cut {
        Cut::Missing => {
            items.push(Item::Cuts(0))?;
            return Ok(rows);
        }
        Cut::Apart(named) => (named, true),
        Cut::Round(named) => (named, false),
    };
    let y = multipliers_of::<N>(alloc, named).ok_or("no multipliers")?;
    let lines = count(&y)?;
    items.push(Item::Cuts(1))?;
    push_multipliers(items, head_of(conflict, lines), &y)?;
    let derivation = derivation_of(conflict, Listed::of(y));
    match check_derivation(alloc, instance, covers, &rows, &derivation) {
        Ok(row) => rows.push(row)?,
        Err(_) => Err("no derivation")?,
    }
    Ok(rows)
}

/// The first line of a cut.
fn head_of<N>(conflict: bool, lines: u32) -> Item<N> {
    if conflict {
        Item::Conflict {
            k: 0,
            p: 1,
            l: 2,
            q: 0,
            lines,
        }
    } else {
        Item::Round { lines }
    }
}

/// How a cut is derived.
fn derivation_of<N>(conflict: bool, y: Listed<Multiplier<N>>) -> Derivation<N> {
    if conflict {
        Derivation::Conflict {
            k: 0,
            p: 1,
            l: 2,
            q: 0,
            y,
        }
    } else {
        Derivation::Round { y }
    }
}

/// The lines of the evidence of a node.
fn push_evidence<N: Exact>(items: &mut Vec<Item<N>>, evidence: &Evidence<N>) -> Result<(), Fail> {
    match evidence {
        Evidence::Unopened => Err("each node is opened")?,
        Evidence::Basic(mark) => items.push(Item::Basic(*mark))?,
        Evidence::Dual(y) => {
            let head = Item::Dual(count(y.entries())?);
            push_multipliers(items, head, y.entries())?;
        }
        Evidence::Farkas(y) => {
            let head = Item::Farkas(count(y.entries())?);
            push_multipliers(items, head, y.entries())?;
        }
        Evidence::Inverse(y) => {
            let head = Item::Inverse(count(y.entries())?);
            push_multipliers(items, head, y.entries())?;
        }
        Evidence::NoInverse(y) => {
            let head = Item::NoInverse(count(y.entries())?);
            push_multipliers(items, head, y.entries())?;
        }
    }
    Ok(())
}

/// The lines of what comes below a node.
fn push_below<N: Exact>(alloc: Global, items: &mut Vec<Item<N>>, below: Below) -> Result<(), Fail> {
    match below {
        Below::Leaf => items.push(Item::Leaf)?,
        Below::Split(commodity, part) => items.push(Item::Split {
            commodity,
            part: Listed::of(Vec::from_slice(alloc, part)?),
        })?,
    }
    Ok(())
}

/// The lines of a node that allows these paths.
fn push_node<N: Exact>(
    alloc: Global,
    items: &mut Vec<Item<N>>,
    instance: &Instance,
    covers: &[Cover],
    cuts: &[CutRow<N>],
    parts: Parts,
) -> Result<(), Fail>
    requires covers { AreClosedCovers instance.now covers.now }
    requires few { path_total covers.now ≤ 16777216 }
{
    let allowed = family(alloc, parts)?;
    if !is_family(covers, &allowed) || !are_cuts(covers, cuts) {
        return Err("no family, or no cuts")?;
    }
    let work = evidence(alloc, instance, covers, &allowed, cuts)?;
    push_evidence(items, &work.evidence)
}

/// The lines of the covers, of the cut and of the tree.
fn push_proof<N: Exact>(
    alloc: Global,
    items: &mut Vec<Item<N>>,
    instance: &Instance,
    plan: &Plan,
) -> Result<(), Fail> {
    for k in 0..3_u32 {
        push_cover(alloc, items, k)?;
    }
    let covers = covers_of(alloc, instance)?;
    let covers = covers.as_slice();
    let cuts = push_cut(alloc, items, instance, covers, plan.cut)?;
    items.push(Item::Tree)?;
    for node in plan.nodes {
        let (parts, below) = *node;
        push_node(alloc, items, instance, covers, &cuts, parts)?;
        push_below(alloc, items, below)?;
    }
    items.push(Item::End)?;
    Ok(())
}

/// The lines of a certificate of the three commodities.
pub(crate) fn items_of<N: Exact>(
    alloc: Global,
    instance: &Instance,
    plan: &Plan,
) -> Result<Vec<Item<N>>, Fail> {
    let mut items = Vec::new(alloc);
    push_head(&mut items, plan)?;
    push_walks(alloc, &mut items)?;
    push_proof(alloc, &mut items, instance, plan)?;
    Ok(items)
}

/// Whether each list of each item has fewer than 2^32 entries.
pub(crate) fn are_short<N: Exact>(items: &[Item<N>]) -> bool
    ensures { IsTrue result → All HasShortLists items.now }
{
    for item in items {
        if !is_short(item) {
            return false;
        }
    }
    true
}

/// Whether each list of an item has fewer than 2^32 entries.
fn is_short<N: Exact>(item: &Item<N>) -> bool
    ensures { IsTrue result → HasShortLists item.now }
{
    match item {
        Item::Path { arcs, .. } => arcs.len() < 4_294_967_296,
        Item::Free { arcs } => arcs.len() < 4_294_967_296,
        Item::Pair { cuts, .. } => cuts.len() < 4_294_967_296,
        Item::Split { part, .. } => part.len() < 4_294_967_296,
        _ => true,
    }
}
