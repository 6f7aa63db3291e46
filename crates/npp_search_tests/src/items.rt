//! The lines of the certificate of an outcome, as items.

use npp_cover::{Cover, Label};
use npp_frac::{Exact, Frac128};
use npp_net::{Instance, Listed, TollId};
use npp_rows::Multiplier;
use npp_tree::{Branch, CertNode, Evidence, Item, Outcome, PathLine};
use std::alloc::Global;
use std::test::Fail;

/// Items at 128 bits.
type Items = Vec<Item<Frac128>>;

/// The lines of the certificate of an outcome, in the second form, at 128 bits.
pub(crate) fn items_of<N: Exact>(
    alloc: Global,
    instance: &Instance,
    covers: &[Cover],
    outcome: &Outcome<N>,
) -> Result<Items, Fail> {
    let mut items = Vec::new(alloc);
    put_values(&mut items, outcome)?;
    put_instance(&mut items, instance)?;
    put_tolls(&mut items, outcome.tolls.values())?;
    put_paths(alloc, &mut items, outcome.paths.entries())?;
    put_covers(alloc, &mut items, covers)?;
    items.push(Item::Cuts(0))?;
    items.push(Item::Tree)?;
    for node in outcome.tree.nodes.entries() {
        put_node(alloc, &mut items, node)?;
    }
    items.push(Item::End)?;
    Ok(items)
}

/// The header, the status, both values, and how many nodes were opened.
fn put_values<N: Exact>(items: &mut Items, outcome: &Outcome<N>) -> Result<(), Fail> {
    items.push(Item::HeaderTwo)?;
    items.push(Item::StatusIs(outcome.status))?;
    items.push(Item::Width(N::WIDTH))?;
    items.push(Item::Lower(outcome.lower))?;
    items.push(Item::Upper(outcome.upper))?;
    items.push(Item::Opened(outcome.opened))?;
    Ok(())
}

/// The sizes of an instance and its ceilings.
fn put_instance(items: &mut Items, instance: &Instance) -> Result<(), Fail> {
    items.push(Item::InstanceIs {
        nodes: instance.nodes(),
        arcs: u32::try_from(instance.arcs().len())?,
        tolls: instance.tolls(),
        commodities: u32::try_from(instance.commodities().len())?,
    })?;
    for toll in 0..instance.tolls() {
        let ceiling = instance.ceiling(TollId(toll));
        items.push(Item::Limit { toll, ceiling })?;
    }
    Ok(())
}

/// The tolls.
fn put_tolls<N: Exact>(items: &mut Items, tolls: &[N]) -> Result<(), Fail> {
    for (toll, value) in tolls.iter().enumerate() {
        let toll = u32::try_from(toll)?;
        let value = value.widen();
        items.push(Item::Toll { toll, value })?;
    }
    Ok(())
}

/// The walks.
fn put_paths<N: Exact>(
    alloc: Global,
    items: &mut Items,
    paths: &[PathLine<N>],
) -> Result<(), Fail> {
    for (k, path) in paths.iter().enumerate() {
        items.push(Item::Path {
            commodity: u32::try_from(k)?,
            cost: path.cost,
            paid: path.paid.widen(),
            arcs: Listed::of(Vec::from_slice(alloc, path.arcs.entries())?),
        })?;
    }
    Ok(())
}

/// The covers, each by its labels and the walk of its last path.
fn put_covers(alloc: Global, items: &mut Items, covers: &[Cover]) -> Result<(), Fail> {
    for (k, cover) in covers.iter().enumerate() {
        items.push(Item::Cover {
            commodity: u32::try_from(k)?,
            labels: u32::try_from(cover.labels().len())?,
        })?;
        for label in cover.labels() {
            items.push(label_item(*label))?;
        }
        let free = cover.paths().last().ok_or("a cover without paths")?;
        let arcs = Vec::from_slice(alloc, &free.walk.arcs)?;
        items.push(Item::Free {
            arcs: Listed::of(arcs),
        })?;
    }
    Ok(())
}

/// The line of a label.
fn label_item(label: Label) -> Item<Frac128> {
    match label.last {
        None => Item::Start,
        Some(arc) => Item::Step {
            parent: label.parent,
            arc,
        },
    }
}

/// The lines of a node: its evidence, and what comes below it where it was opened.
fn put_node<N: Exact>(alloc: Global, items: &mut Items, node: &CertNode<N>) -> Result<(), Fail> {
    put_evidence(items, &node.evidence)?;
    if let Evidence::Unopened = node.evidence {
        return Ok(());
    }
    match &node.branch {
        Branch::Leaf => items.push(Item::Leaf)?,
        Branch::Split { commodity, part } => items.push(Item::Split {
            commodity: *commodity,
            part: Listed::of(Vec::from_slice(alloc, part.entries())?),
        })?,
    }
    Ok(())
}

/// The lines of evidence.
fn put_evidence<N: Exact>(items: &mut Items, evidence: &Evidence<N>) -> Result<(), Fail> {
    match evidence {
        Evidence::Unopened => items.push(Item::Open)?,
        Evidence::Basic(mark) => items.push(Item::Basic(*mark))?,
        Evidence::Dual(list) => {
            items.push(Item::Dual(u32::try_from(list.len())?))?;
            put_multipliers(items, list.entries())?;
        }
        Evidence::Farkas(list) => {
            items.push(Item::Farkas(u32::try_from(list.len())?))?;
            put_multipliers(items, list.entries())?;
        }
        Evidence::Inverse(list) => {
            items.push(Item::Inverse(u32::try_from(list.len())?))?;
            put_multipliers(items, list.entries())?;
        }
        Evidence::NoInverse(list) => {
            items.push(Item::NoInverse(u32::try_from(list.len())?))?;
            put_multipliers(items, list.entries())?;
        }
    }
    Ok(())
}

/// The multipliers of a node.
fn put_multipliers<N: Exact>(items: &mut Items, list: &[Multiplier<N>]) -> Result<(), Fail> {
    for multiplier in list {
        items.push(Item::Mult(Multiplier {
            row: multiplier.row,
            value: multiplier.value.widen(),
        }))?;
    }
    Ok(())
}
