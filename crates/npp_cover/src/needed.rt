//! The arcs by which labels have to be extended.

ghost use Rattle.std.specs.Prelude.{◌≡◌, ◌<◌, [], ◌∷◌, ◌++◌, length, All, OnOk, IfOk, IfSome, MatchOption, false};
ghost use Rattle.npp_net.specs.Network.{IsNetwork};
ghost use Rattle.npp_short.specs.Reach.{cost_at};
ghost use Rattle.npp_cover.specs.Needed.{AreNeeded, AreNeededAt, AreArcs, IsNeededAs, spares, is_spared, is_needed, needed_at};

use crate::extend::can_win;
use npp_net::{ArcId, Instance, NodeId};
use npp_short::Potentials;
use std::alloc::{AllocError, Global};
use std::marker::Model;

/// An arc by which the labels at its tail have to be extended. Of those of a node the first has the least cost on by it, of
/// equals no toll, then the least cost of its own, the lowest head and the lowest number.
#[derive(Clone, Copy, Debug, PartialEq, Eq, PartialOrd, Ord)]
pub struct NeededArc {
    /// Its cost and the least cost onward from its head, together.
    pub onward: u64,
    /// How many tolls it has: 1 for a toll arc, else 0.
    pub tolls: u32,
    /// Its cost, without toll.
    pub cost: u32,
    /// The number of its head.
    pub head: u32,
    /// Its number.
    pub arc: u32,
}

/// For each node the arcs by which its labels have to be extended, in order. Whatever label is extended by another arc, that
/// extension cannot win, or is at the label's own node, or is dominated by the extension by one of these.
#[derive(Drop)]
pub struct NeededArcs {
    by_node: Vec<Vec<NeededArc>>,
}

impl Model for NeededArcs {
    ghost use Rattle.std.specs.Prelude.{map};
    ghost use Rattle.npp_cover.specs.Needed.{NeededValue};

    ghost Value = { NeededValue };

    ghost view = { λ n. map (λ arcs. arcs.items) n.by_node.items };
}

impl NeededArcs {
    /// The needed arcs for walks to the destination of the potentials that cost less than `free`. The potentials are with
    /// tolls.
    pub fn new(
        alloc: Global,
        instance: &Instance,
        potentials: &Potentials,
        free: u64,
    ) -> Result<NeededArcs, AllocError>
        requires network { IsNetwork instance.now }
        requires potentials { length potentials.now ≡ instance.now.nodes }
        ensures { IfOk result (AreNeeded instance.now.arcs (cost_at potentials.now) free instance.now.nodes) }
    {
        let mut cheapest = none_noted(alloc, instance)?;
        let mut by_node = Vec::new(alloc);
        for node in 0..instance.nodes() {
            let arcs = instance.leaving(NodeId(node));
            note_cheapest(instance, arcs, &mut cheapest);
            by_node.push(needed_of(alloc, instance, potentials, free, &cheapest, NodeId(node))?)?;
        }
        Ok(NeededArcs { by_node })
    }

    /// The needed arcs that leave the node.
    pub fn at(&self, node: NodeId) -> &[NeededArc]
        requires { node.0 < length self.now }
        ensures { result.now ≡ needed_at self.now node.0 }
    {
        &self.by_node[node.0 as usize]
    }
}

/// Nothing noted, for each node.
fn none_noted(alloc: Global, instance: &Instance) -> Result<Vec<Option<ArcId>>, AllocError>
    ensures size { IfOk result (λ v. length v.items ≡ instance.now.nodes) }
    ensures noted { IfOk result (λ v. AreArcs instance.now.arcs v.items) }
{
    let mut noted = Vec::new(alloc);
    for _ in 0..instance.nodes() {
        noted.push(None)?;
    }
    Ok(noted)
}

/// Whether an arc makes another needless: it is toll-free and between the same nodes, and costs less, or as much where the
/// other is a toll arc or comes later.
fn spares(instance: &Instance, by: ArcId, arc: ArcId) -> bool
    requires by { by.0 < length instance.now.arcs }
    requires arc { arc.0 < length instance.now.arcs }
    ensures { result ≡ spares instance.now.arcs by arc }
{
    let b = instance.arcs()[by.0 as usize];
    let x = instance.arcs()[arc.0 as usize];
    if b.toll || b.tail.0 != x.tail.0 || b.head.0 != x.head.0 {
        return false;
    }
    b.cost < x.cost || (b.cost == x.cost && (x.toll || by.0 < arc.0))
}

/// Notes each of the arcs that is toll-free and costs less than what was noted last for its head.
fn note_cheapest(instance: &Instance, arcs: &[ArcId], cheapest: &mut Vec<Option<ArcId>>)
    requires network { IsNetwork instance.now }
    requires arcs { All (λ a. a.0 < length instance.now.arcs) arcs.now }
    requires size { length cheapest.old.items ≡ instance.now.nodes }
    requires noted { AreArcs instance.now.arcs cheapest.old.items }
    ensures size { length cheapest.new.items ≡ instance.now.nodes }
    ensures noted { AreArcs instance.now.arcs cheapest.new.items }
{
    for arc in arcs {
        let x = instance.arcs()[arc.0 as usize];
        let at = x.head.0 as usize;
        if !x.toll && !is_spared(instance, cheapest[at], *arc) {
            cheapest[at] = Some(*arc);
        }
    }
}

/// Whether the arc, if there is one, makes the other needless.
fn is_spared(instance: &Instance, by: Option<ArcId>, arc: ArcId) -> bool
    requires by { IfSome by (λ b. b.0 < length instance.now.arcs) }
    requires arc { arc.0 < length instance.now.arcs }
    ensures { result ≡ is_spared instance.now.arcs by arc }
{
    match by {
        Some(by) => spares(instance, by, arc),
        None => false,
    }
}

/// The arc with the least cost on by it, where it is needed: it is no loop, what is noted for its head does not spare it, and a
/// walk by it can win.
fn needed_by(
    instance: &Instance,
    potentials: &Potentials,
    free: u64,
    cheapest: &[Option<ArcId>],
    arc: ArcId,
) -> Option<NeededArc>
    requires network { IsNetwork instance.now }
    requires potentials { length potentials.now ≡ instance.now.nodes }
    requires size { length cheapest.now ≡ instance.now.nodes }
    requires noted { AreArcs instance.now.arcs cheapest.now }
    requires arc { arc.0 < length instance.now.arcs }
    ensures { MatchOption result
        (is_needed instance.now.arcs (cost_at potentials.now) free cheapest.now arc ≡ false)
        (IsNeededAs instance.now.arcs (cost_at potentials.now) arc) }
{
    let x = instance.arcs()[arc.0 as usize];
    if x.head.0 == x.tail.0 || is_spared(instance, cheapest[x.head.0 as usize], arc) {
        return None;
    }
    if !can_win(potentials, free, x.head, u64::from(x.cost)) {
        return None;
    }
    let more = potentials.at(x.head)?;
    Some(NeededArc {
        onward: u64::from(x.cost) + more,
        tolls: if x.toll { 1 } else { 0 },
        cost: x.cost,
        head: x.head.0,
        arc: arc.0,
    })
}

/// The needed arcs that leave the node, where the cheapest toll-free arc to each head is noted.
fn needed_of(
    alloc: Global,
    instance: &Instance,
    potentials: &Potentials,
    free: u64,
    cheapest: &[Option<ArcId>],
    node: NodeId,
) -> Result<Vec<NeededArc>, AllocError>
    requires network { IsNetwork instance.now }
    requires potentials { length potentials.now ≡ instance.now.nodes }
    requires size { length cheapest.now ≡ instance.now.nodes }
    requires noted { AreArcs instance.now.arcs cheapest.now }
    requires node { node.0 < instance.now.nodes }
    ensures { IfOk result (λ v. AreNeededAt instance.now.arcs (cost_at potentials.now) free node.0 v.items) }
{
    let mut needed = Vec::new(alloc);
    for arc in instance.leaving(node) {
        let next = needed_by(instance, potentials, free, cheapest, *arc);
        add(&mut needed, next)?;
    }
    needed.sort()?;
    Ok(needed)
}

/// Puts the arc at the end, if there is one.
fn add(needed: &mut Vec<NeededArc>, next: Option<NeededArc>) -> Result<(), AllocError>
    ensures { OnOk result (MatchOption next (needed.new.items ≡ needed.old.items) (λ e. needed.new.items ≡ needed.old.items ++ e ∷ [])) }
{
    if let Some(next) = next {
        needed.push(next)?;
    }
    Ok(())
}
