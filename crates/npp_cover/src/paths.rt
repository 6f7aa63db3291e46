//! The paths of a cover, from its labels.

ghost use Rattle.std.specs.Prelude.{◌≡◌, ◌<◌, ◌≤◌, length, map, All, IfOk};
ghost use Rattle.npp_net.specs.TollSets.{size_of};
ghost use Rattle.npp_cover.specs.Paths.{AreInOrder, ranks_at, walk_of, path_of, free_path, AreLinked, IsRankOf};
ghost use Rattle.npp_cover.specs.PathValue.{path_value};

use crate::label::{Label, label_at};
use crate::path::UsefulPath;
use crate::rank::Rank;
use npp_net::{NodeId, TollSet, Walk};
use std::alloc::{AllocError, Global};

/// The ranks of the labels at the node, each before those that it precedes.
#[tactic(auto, using(crate::proofs::RankLemmas::in_order))]
pub(crate) fn ranks_of(
    alloc: Global,
    labels: &[Label],
    node: NodeId,
) -> Result<Vec<Rank>, AllocError>
    requires { length labels.now ≤ 65536 }
    ensures { IfOk result (λ v. AreInOrder labels.now node.0 v.items) }
{
    let mut ranks = ranks_at(alloc, labels, node)?;
    ranks.sort()?;
    Ok(ranks)
}

/// The ranks of the labels at the node, in the order of the labels.
fn ranks_at(alloc: Global, labels: &[Label], node: NodeId) -> Result<Vec<Rank>, AllocError>
    requires { length labels.now ≤ 65536 }
    ensures { IfOk result (λ v. v.items ≡ ranks_at labels.now node.0 (length labels.now)) }
{
    let mut ranks = Vec::new(alloc);
    for (number, label) in labels.iter().enumerate() {
        if label.node == node {
            ranks.push(rank_of(*label, number as u32))?;
        }
    }
    Ok(ranks)
}

fn rank_of(label: Label, number: u32) -> Rank
    ensures cost { result.cost ≡ label.cost }
    ensures size { result.size ≡ size_of label.tolls }
    ensures set { result.set ≡ label.tolls }
    ensures label { result.label ≡ number }
{
    Rank {
        cost: label.cost,
        size: label.tolls.size(),
        set: label.tolls.number(),
        label: number,
    }
}

/// The walk of a label, from its last arc back to the start.
fn walk_of(alloc: Global, labels: &[Label], number: u32) -> Result<Walk, AllocError>
    requires linked { AreLinked labels.now }
    requires number { number < length labels.now }
    ensures { IfOk result (λ w. w.arcs.items ≡ walk_of labels.now number) }
{
    let mut arcs = Vec::new(alloc);
    let mut at = number;
    while let Some(arc) = label_at(labels, at).last {
        arcs.push(arc)?;
        at = label_at(labels, at).parent;
    }
    arcs.reverse();
    Ok(Walk { arcs })
}

/// The paths of the labels of these ranks, in order.
pub(crate) fn paths_of(
    alloc: Global,
    labels: &[Label],
    ranks: &[Rank],
) -> Result<Vec<UsefulPath>, AllocError>
    requires linked { AreLinked labels.now }
    requires ranks { All (λ r. IsRankOf labels.now r) ranks.now }
    ensures { IfOk result (λ v. map path_value v.items ≡ map (path_of labels.now) ranks.now) }
{
    let mut paths = Vec::new(alloc);
    for rank in ranks {
        let label = label_at(labels, rank.label);
        paths.push(UsefulPath {
            tolls: label.tolls,
            cost: label.cost,
            walk: walk_of(alloc, labels, rank.label)?,
        })?;
    }
    Ok(paths)
}

/// The toll-free path.
pub(crate) fn free_path(free: u64, walk: Walk) -> UsefulPath
    ensures { path_value result ≡ free_path free walk.arcs.items }
{
    UsefulPath {
        tolls: TollSet::empty(),
        cost: free,
        walk,
    }
}
