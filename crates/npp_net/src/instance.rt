//! An instance: a network whose limits hold, with an index of its arcs.

ghost use Rattle.std.specs.Prelude.{◌≡◌, ◌⊎◌, ◌<◌, ◌≤◌, ℕ, length, IfOk, MatchResult, Some, None, slice_index, true};
ghost use Rattle.npp_net.specs.Network.{Network, IsNetwork, arc_at, toll_count, toll_number, ceiling_of};
ghost use Rattle.npp_net.specs.Ends.{leaving_arcs, entering_arcs};
ghost use Rattle.npp_net.specs.Index.{toll_of};
ghost use Rattle.npp_net.specs.Refusal.{refusal_of};

use crate::ends::{End, arcs_at};
use crate::index::{toll_arcs, toll_numbers};
use crate::limits::refused;
use crate::refusal::NetRefusal;
use crate::types::{ArcId, Commodity, NetArc, NodeId, TollId};
use std::alloc::Global;
use std::marker::Model;

/// A network with its commodities, within the limits: at most 1,000 nodes, 5,000 arcs, 128 toll arcs and 100
/// commodities, of which there is at least one; costs and demands at most 1,000,000, and ceilings at most 1,000,000,000.
#[derive(Drop)]
pub struct Instance {
    nodes: u32,
    arcs: Vec<NetArc>,
    commodities: Vec<Commodity>,
    toll_arcs: Vec<ArcId>,
    toll_numbers: Vec<Option<TollId>>,
    leaving: Vec<Vec<ArcId>>,
    entering: Vec<Vec<ArcId>>,
}

impl Model for Instance {
    ghost use Rattle.std.specs.Prelude.{length};
    ghost use Rattle.npp_net.specs.declared.ends.End.TheVariants.{Tail, Head};
    ghost use Rattle.npp_net.specs.Network.{Network, IsNetwork};
    ghost use Rattle.npp_net.specs.Index.{ListsTolls, NumbersTolls};
    ghost use Rattle.npp_net.specs.Ends.{AreArcsAt};

    ghost Value = { Network };

    ghost view = { λ i. record { nodes = i.nodes; arcs = i.arcs.items; commodities = i.commodities.items } };

    ghost invariant = { λ i.
        IsNetwork (record { nodes = i.nodes; arcs = i.arcs.items; commodities = i.commodities.items })
        × ListsTolls i.arcs.items i.toll_arcs.items
        × NumbersTolls i.arcs.items i.toll_numbers.items
        × AreArcsAt Tail i.arcs.items (length i.arcs.items) i.nodes i.leaving.items
        × AreArcsAt Head i.arcs.items (length i.arcs.items) i.nodes i.entering.items };
}

impl Instance {
    /// The instance of these nodes, arcs and commodities, or the first limit that is broken.
    ///
    /// The counts are judged first, in the order of nodes, arcs, toll arcs and commodities; then each arc in order,
    /// by its ends, then its cost and its ceiling, and then that a toll-free arc has no ceiling; then each commodity in
    /// order, by its ends, its demand's greatest value, the difference of its ends and its demand's least value; last
    /// that there is a commodity.
    pub fn new(
        alloc: Global,
        nodes: u32,
        arcs: Vec<NetArc>,
        commodities: Vec<Commodity>,
    ) -> Result<Instance, NetRefusal>
        ensures taken { IfOk result (λ i. i ≡ record { nodes = nodes; arcs = arcs.items; commodities = commodities.items }) }
        ensures limits { IfOk result IsNetwork }
        ensures refused { MatchResult result
            (λ i. refusal_of i ≡ None)
            (λ e. (e ≡ NetRefusal.Memory) ⊎ (refusal_of (record { nodes = nodes; arcs = arcs.items; commodities = commodities.items }) ≡ Some e)) }
    {
        if let Some(refusal) = refused(nodes, &arcs, &commodities) {
            return Err(refusal);
        }
        let toll_arcs = toll_arcs(alloc, &arcs)?;
        let toll_numbers = toll_numbers(alloc, &arcs)?;
        let leaving = arcs_at(alloc, nodes, &arcs, End::Tail)?;
        let entering = arcs_at(alloc, nodes, &arcs, End::Head)?;
        Ok(Instance {
            nodes,
            arcs,
            commodities,
            toll_arcs,
            toll_numbers,
            leaving,
            entering,
        })
    }

    /// How many nodes there are.
    pub fn nodes(&self) -> u32
        ensures count { result ≡ self.now.nodes }
        ensures limits { IsNetwork self.now }
    {
        self.nodes
    }

    /// The arcs in the order of their numbers, toll arcs and toll-free arcs together.
    pub fn arcs(&self) -> &[NetArc]
        ensures list { result.now ≡ self.now.arcs }
        ensures limits { IsNetwork self.now }
    {
        &self.arcs
    }

    /// The commodities in the order of their numbers.
    pub fn commodities(&self) -> &[Commodity]
        ensures list { result.now ≡ self.now.commodities }
        ensures limits { IsNetwork self.now }
    {
        &self.commodities
    }

    /// How many toll arcs there are.
    pub fn tolls(&self) -> u32
        ensures count { result ≡ toll_count self.now.arcs }
        ensures limits { IsNetwork self.now }
    {
        self.toll_arcs.len() as u32
    }

    /// The toll number of an arc, or None exactly where the arc is toll-free.
    pub fn toll_of(&self, arc: ArcId) -> Option<TollId>
        requires { arc.0 < length self.now.arcs }
        ensures { result ≡ toll_of self.now.arcs arc }
    {
        self.toll_numbers[arc.0 as usize]
    }

    /// The arc of a toll number.
    pub fn arc_of(&self, toll: TollId) -> ArcId
        requires { toll.0 < toll_count self.now.arcs }
        ensures in_range { result.0 < length self.now.arcs }
        ensures is_toll { (arc_at self.now.arcs result).toll ≡ true }
        ensures number { toll_number self.now.arcs result ≡ toll.0 }
    {
        self.toll_arcs[toll.0 as usize]
    }

    /// The ceiling of a toll, or None exactly where its arc has none.
    #[tactic(auto, using(crate::proofs::IndexLemmas::ceiling_at))]
    pub fn ceiling(&self, toll: TollId) -> Option<u32>
        requires { toll.0 < toll_count self.now.arcs }
        ensures { result ≡ ceiling_of self.now.arcs toll.0 }
    {
        let arc = self.arc_of(toll);
        self.arcs()[arc.0 as usize].ceiling
    }

    /// The arcs that begin at a node, in the order of their numbers.
    pub fn leaving(&self, node: NodeId) -> &[ArcId]
        requires { node.0 < self.now.nodes }
        ensures { result.now ≡ leaving_arcs self.now.arcs node.0 }
    {
        &self.leaving[node.0 as usize]
    }

    /// The arcs that end at a node, in the order of their numbers.
    pub fn entering(&self, node: NodeId) -> &[ArcId]
        requires { node.0 < self.now.nodes }
        ensures { result.now ≡ entering_arcs self.now.arcs node.0 }
    {
        &self.entering[node.0 as usize]
    }
}
